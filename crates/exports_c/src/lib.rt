// The library's entries under C names, for a static library: each calls the function of `exports` that it is named after and repeats its promise.
//
// A slice passes as a pointer and a length, an answer as a struct of numbers (`exports::outcomes`). The feeder's entries stand in `feeding`, the replay's in
// `replaying`.
#![tactic(auto)]

pub mod feeding;
pub mod replaying;

ghost use Rattle.std.specs.Prelude.{◌≡◌, true, ◌&&◌, map, ◌+◌, ◌*◌, ◌≤◌, leb, length};
ghost use Rattle.listing_rules.specs.Table.{passes, packed_table};
ghost use Rattle.listing_rules.specs.Readers.{packed_seen};
ghost use Rattle.listing_rules.specs.Namespaces.{namespaces_pass};
ghost use Rattle.listing_rules.specs.Match.{matches};
ghost use Rattle.listing_rules.specs.LineReader.{written, read_line};
ghost use Rattle.listing_rules.specs.Server.{buffer_after};
ghost use Rattle.listing_rules.specs.Walk.{collected_by};
ghost use Rattle.listing_rules.specs.Joining.{joined_into};
ghost use Rattle.listing_rules.specs.Summary.{summarized};
ghost use Rattle.records.specs.Words.{meant};
ghost use Rattle.records.specs.Numbers.{summary_of};
ghost use Rattle.records.specs.Lent.{lent_table, lent_seen};
ghost use Rattle.records.specs.Stores.{lent_command, lent_compaction};
ghost use Rattle.pattern.specs.Steps.{counted_is};
ghost use Rattle.list_line.specs.Members.{members};
ghost use Rattle.collector.specs.Result.{scratch_of, found_of, pending_of};
ghost use Rattle.exports.specs.Outcomes.{handed_outcome, plain_table, Into, walk_outcome, allowed_outcome, OwesOutcome, parts_of};

use exports::outcomes::{LineParts, Outcome};
use records::Record;

// Check 1: whether the first `count` records pass, over the area of name bytes, and their summary agrees.
#[unsafe(no_mangle)]
pub extern "C" fn luspemaro_check_records(
    records: &[Record],
    count: usize,
    area: &[u8],
    summary: &[u64],
) -> bool
    ensures { result ≡ passes (lent_table records.now count area.now summary.now) }
{
    exports::luspemaro_check_records(records, count, area, summary)
}

// A caller's first summary, counted afresh: 0, or 1 where the records do not pass without one, or are more than the numbers; then every number stays.
#[unsafe(no_mangle)]
pub extern "C" fn luspemaro_summarize(
    records: &[Record],
    count: usize,
    area: &[u8],
    summary: &mut [u64],
) -> u8
    ensures result { result ≡ (summarized (plain_table records.now count area.now summary.old)
        (map summary_of summary.old)).number }
    ensures summary { map summary_of summary.new
        ≡ (summarized (plain_table records.now count area.now summary.old) (map summary_of summary.old)).summary }
{
    exports::luspemaro_summarize(records, count, area, summary)
}

// Check 1 of a packed table, which has no summary.
#[unsafe(no_mangle)]
pub extern "C" fn luspemaro_check_table(table: &[u8]) -> bool
    ensures { result ≡ passes (packed_table table.now) }
{
    exports::luspemaro_check_table(table)
}

// Check 2: whether the namespace list passes.
#[unsafe(no_mangle)]
pub extern "C" fn luspemaro_check_namespaces(list: &[u8]) -> bool
    ensures { result ≡ namespaces_pass list.now }
{
    exports::luspemaro_check_namespaces(list)
}

// Whether the name, of at most 255 bytes, matches the canonical pattern.
#[unsafe(no_mangle)]
pub extern "C" fn luspemaro_matches(pattern: &[u8], name: &[u8]) -> bool
    ensures { result ≡ (leb (length name.now) 255 && matches pattern.now name.now) }
{
    exports::luspemaro_matches(pattern, name)
}

// In how many steps that is decided.
#[unsafe(no_mangle)]
pub extern "C" fn luspemaro_match_steps(pattern: &[u8], name: &[u8]) -> usize
    ensures count { result ≡ (counted_is pattern.now name.now).steps }
    ensures bound { result ≤ (length pattern.now + 1) * (length name.now + 1) }
{
    exports::luspemaro_match_steps(pattern, name)
}

// The answer to one command of a reader at the front of `out`. SUBSCRIBE and UNSUBSCRIBE change records, area and summary; `count` of the outcome is the
// number of rows given back, on a refusal the one that was passed, and `changed` says whether a row changed.
#[unsafe(no_mangle)]
pub extern "C" fn luspemaro_answer(
    records: &mut [Record],
    count: usize,
    reader: u8,
    area: &mut [u8],
    summary: &mut [u64],
    namespaces: &[u8],
    line: &[u8],
    out: &mut [u8],
) -> Outcome
    ensures result { result ≡ handed_outcome (lent_command records.old count reader area.old summary.old
        namespaces.now line.now out.old) }
    ensures bytes { out.new ≡ buffer_after out.old (lent_command records.old count reader area.old summary.old
        namespaces.now line.now out.old).reply }
    ensures area { area.new ≡ (lent_command records.old count reader area.old summary.old
        namespaces.now line.now out.old).area }
    ensures summary { map summary_of summary.new ≡ (lent_command records.old count reader area.old summary.old
        namespaces.now line.now out.old).summary }
    ensures records { map meant records.new ≡ (lent_command records.old count reader area.old summary.old
        namespaces.now line.now out.old).records }
{
    exports::luspemaro_answer(records, count, reader, area, summary, namespaces, line, out)
}

// Names moved together: 0, or 1 where the table does not pass with its summary.
#[unsafe(no_mangle)]
pub extern "C" fn luspemaro_compact(
    records: &mut [Record],
    count: usize,
    area: &mut [u8],
    summary: &[u64],
) -> u8
    ensures result { result ≡ (lent_compaction records.old count area.old summary.now).number }
    ensures area { area.new ≡ (lent_compaction records.old count area.old summary.now).area }
    ensures records { map meant records.new
        ≡ (lent_compaction records.old count area.old summary.now).records }
{
    exports::luspemaro_compact(records, count, area, summary)
}

// The whole walk of a reader: finds at the front of `found`, the names that were asked below at the front of `pending`.
#[unsafe(no_mangle)]
pub extern "C" fn luspemaro_collect(
    records: &[Record],
    count: usize,
    reader: u8,
    area: &[u8],
    summary: &[u64],
    option: u8,
    scratch: &mut [u8],
    found: &mut [u8],
    pending: &mut [u8],
) -> Outcome
    ensures result { result ≡ walk_outcome (collected_by reader (lent_seen reader records.now count area.now summary.now)
        option scratch.old found.old pending.old) }
    ensures scratch { scratch.new ≡ scratch_of reader (lent_seen reader records.now count area.now summary.now)
        option scratch.old found.old pending.old }
    ensures found { found.new ≡ found_of reader (lent_seen reader records.now count area.now summary.now)
        option scratch.old found.old pending.old }
    ensures pending { pending.new ≡ pending_of reader (lent_seen reader records.now count area.now summary.now)
        option scratch.old found.old pending.old }
    ensures demand3 { OwesOutcome reader (lent_table records.now count area.now summary.now)
        (lent_seen reader records.now count area.now summary.now)
        option scratch.old found.old pending.old
        result found.new pending.new }
    ensures numbers { allowed_outcome result ≡ true }
{
    exports::luspemaro_collect(
        records, count, reader, area, summary, option, scratch, found, pending,
    )
}

// The same over a packed table.
#[unsafe(no_mangle)]
pub extern "C" fn luspemaro_collect_packed(
    table: &[u8],
    reader: u8,
    option: u8,
    scratch: &mut [u8],
    found: &mut [u8],
    pending: &mut [u8],
) -> Outcome
    ensures result { result ≡ walk_outcome (collected_by reader (packed_seen reader table.now)
        option scratch.old found.old pending.old) }
    ensures scratch { scratch.new ≡ scratch_of reader (packed_seen reader table.now)
        option scratch.old found.old pending.old }
    ensures found { found.new ≡ found_of reader (packed_seen reader table.now)
        option scratch.old found.old pending.old }
    ensures pending { pending.new ≡ pending_of reader (packed_seen reader table.now)
        option scratch.old found.old pending.old }
    ensures demand3 { OwesOutcome reader (packed_table table.now)
        (packed_seen reader table.now) option scratch.old found.old pending.old
        result found.new pending.new }
    ensures numbers { allowed_outcome result ≡ true }
{
    exports::luspemaro_collect_packed(table, reader, option, scratch, found, pending)
}

// The line writer: the line of these parts at the front of `out`. The criteria are those that CHILDINFO names: 1 SUBSCRIBED, 2
// SPECIAL-USE. A number with another bit is refused with 12, first.
#[unsafe(no_mangle)]
pub extern "C" fn luspemaro_write_line(
    attributes: u16,
    name: &[u8],
    criteria: u8,
    out: &mut [u8],
) -> Outcome
    ensures { Into (written (members attributes) name.now criteria out.old) out.old out.new result }
{
    exports::luspemaro_write_line(attributes, name, criteria, out)
}

// The line reader.
#[unsafe(no_mangle)]
pub extern "C" fn luspemaro_read_line(line: &[u8]) -> LineParts
    ensures { result ≡ parts_of (read_line line.now) }
{
    exports::luspemaro_read_line(line)
}

// The joined command of these parts at the front of `out`. The options are a set by its number: of the selection 1 SUBSCRIBED, 2 REMOTE,
// 4 RECURSIVEMATCH, 8 SPECIAL-USE, of the return options 16 SUBSCRIBED, 32 CHILDREN, 64 SPECIAL-USE. The patterns are packed, each as a
// length byte and its bytes.
#[unsafe(no_mangle)]
pub extern "C" fn luspemaro_join(
    tag: &[u8],
    options: u8,
    reference: &[u8],
    patterns: &[u8],
    out: &mut [u8],
) -> Outcome
    ensures { Into (joined_into tag.now options reference.now patterns.now out.old)
        out.old out.new result }
{
    exports::luspemaro_join(tag, options, reference, patterns, out)
}
