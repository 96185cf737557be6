// The library for programs in C and Rust: the entries of document 01 under plain names; and document 02's feeder (`feeding`)
// and replay (`replaying`). The crate `exports_c` hands them to C under the same names.
//
// The entries over lent records, with the summary beside them, stand here and in `replaying`: each copies the records in as numbers, hands these and the
// summary to the entry of the crate below that works on them, and copies back the records that it changed. Every other function calls the entry that it is named after and repeats its
// promise. A slice passes as a pointer and a length, an answer as a struct of numbers (`outcomes`).
#![tactic(auto)]

pub mod feeding;
pub mod outcomes;
pub mod replaying;

ghost use Rattle.std.specs.Prelude.{◌≡◌, true, ◌&&◌, map, ◌+◌, ◌*◌, ◌≤◌, leb, length, take};
ghost use Rattle.listing_rules.specs.Table.{passes, packed_table};
ghost use Rattle.listing_rules.specs.Readers.{packed_seen};
ghost use Rattle.listing_rules.specs.Namespaces.{namespaces_pass};
ghost use Rattle.listing_rules.specs.Match.{matches};
ghost use Rattle.listing_rules.specs.LineReader.{written, read_line};
ghost use Rattle.listing_rules.specs.Server.{buffer_after};
ghost use Rattle.listing_rules.specs.Walk.{collected_by};
ghost use Rattle.listing_rules.specs.Joining.{joined_into};
ghost use Rattle.listing_rules.specs.Summary.{summarized};
ghost use Rattle.records.specs.Words.{record_of, meant};
ghost use Rattle.records.specs.Numbers.{summary_of};
ghost use Rattle.records.specs.Lent.{lent_of, lent_table, lent_seen, words_table, words_seen};
ghost use Rattle.records.specs.Stores.{lent_command, word_command, lent_compaction, Between};
ghost use Rattle.pattern.specs.Steps.{counted_is};
ghost use Rattle.list_line.specs.Members.{members};
ghost use Rattle.collector.specs.Result.{scratch_of, found_of, pending_of};
ghost use Rattle.exports.specs.Outcomes.{handed_outcome, plain_table, Into, walk_outcome, allowed_outcome, OwesOutcome, parts_of};

use compaction::compact_words;
use list_line::{Attributes, Criteria};
use octets::least;
use outcomes::{Done, LineParts, Outcome, command_done, number_or_0, written_outcome};
use records::{Record, copy_back, copy_in, no_words};
use summary::{check_summed, summarize_words};

// Check 1: whether the first `count` records pass, over the area of name bytes, and their summary agrees.
pub fn luspemaro_check_records(
    records: &[Record],
    count: usize,
    area: &[u8],
    summary: &[u64],
) -> bool
    ensures { result ≡ passes (lent_table records.now count area.now summary.now) }
{
    let mut words = no_words();
    let n = copy_in(records, count, &mut words);
    check_summed(&words[..n], count, area, summary)
}

// A caller's first summary, counted afresh: 0, or 1 where the records do not pass without one, or are more than the numbers; then every number stays.
pub fn luspemaro_summarize(records: &[Record], count: usize, area: &[u8], summary: &mut [u64]) -> u8
    ensures result { result ≡ (summarized (plain_table records.now count area.now summary.old)
        (map summary_of summary.old)).number }
    ensures summary { map summary_of summary.new
        ≡ (summarized (plain_table records.now count area.now summary.old) (map summary_of summary.old)).summary }
{
    let mut words = no_words();
    let n = copy_in(records, count, &mut words);
    number_or_0(summarize_words(&words[..n], count, area, summary))
}

// Check 1 of a packed table, which has no summary.
pub fn luspemaro_check_table(table: &[u8]) -> bool
    ensures { result ≡ passes (packed_table table.now) }
{
    mailbox_table::check(table)
}

// Check 2: whether the namespace list passes.
pub fn luspemaro_check_namespaces(list: &[u8]) -> bool
    ensures { result ≡ namespaces_pass list.now }
{
    namespace_list::check(list)
}

// Whether the name, of at most 255 bytes, matches the canonical pattern.
pub fn luspemaro_matches(pattern: &[u8], name: &[u8]) -> bool
    ensures { result ≡ (leb (length name.now) 255 && matches pattern.now name.now) }
{
    pattern::matches(pattern, name)
}

// In how many steps that is decided.
pub fn luspemaro_match_steps(pattern: &[u8], name: &[u8]) -> usize
    ensures count { result ≡ (counted_is pattern.now name.now).steps }
    ensures bound { result ≤ (length pattern.now + 1) * (length name.now + 1) }
{
    let counted = pattern::match_steps(pattern, name);
    counted.steps
}

// The answer to one command of a reader at the front of `out`. SUBSCRIBE and UNSUBSCRIBE change records, area and summary; `count` of the outcome is the
// number of rows given back, on a refusal the one that was passed, and `changed` says whether a row changed.
pub fn luspemaro_answer(
    records: &mut [Record],
    count: usize,
    reader: u8,
    area: &mut [u8],
    summary: &mut [u64],
    namespaces: &[u8],
    line: &[u8],
    out: &mut [u8],
) -> Outcome
    ensures result { result ≡ handed_outcome (lent_command records.old count reader area.old summary.old
        namespaces.now line.now out.old) }
    ensures bytes { out.new ≡ buffer_after out.old (lent_command records.old count reader area.old summary.old
        namespaces.now line.now out.old).reply }
    ensures area { area.new ≡ (lent_command records.old count reader area.old summary.old
        namespaces.now line.now out.old).area }
    ensures summary { map summary_of summary.new ≡ (lent_command records.old count reader area.old summary.old
        namespaces.now line.now out.old).summary }
    ensures records { map meant records.new ≡ (lent_command records.old count reader area.old summary.old
        namespaces.now line.now out.old).records }
{
    let mut words = no_words();
    let lent = copy_in(records, summary.len(), &mut words);
    let done = answer_words(
        &mut words, lent, count, reader, area, summary, namespaces, line, out,
    );
    copy_back(records, done.from, done.to, &words);
    done.answer
}

// That over records, each as a number, of which the first `lent` are lent.
fn answer_words(
    words: &mut [u64],
    lent: usize,
    count: usize,
    reader: u8,
    area: &mut [u8],
    summary: &mut [u64],
    namespaces: &[u8],
    line: &[u8],
    out: &mut [u8],
) -> Done<Outcome>
    ensures result { result.answer ≡ handed_outcome (word_command words.old lent count reader area.old summary.old
        namespaces.now line.now out.old) }
    ensures bytes { out.new ≡ buffer_after out.old (word_command words.old lent count reader area.old summary.old
        namespaces.now line.now out.old).reply }
    ensures area { area.new ≡ (word_command words.old lent count reader area.old summary.old
        namespaces.now line.now out.old).area }
    ensures summary { map summary_of summary.new ≡ (word_command words.old lent count reader area.old summary.old
        namespaces.now line.now out.old).summary }
    ensures words { (map record_of (take (lent_of words.old lent summary.old) words.new)
        ≡ (word_command words.old lent count reader area.old summary.old
        namespaces.now line.now out.old).records)
        × Between words.old words.new (lent_of words.old lent summary.old) result.from result.to }
{
    let n = least(lent, words.len());
    let stored = server::answer_words(
        &mut words[..n],
        summary,
        count,
        reader,
        area,
        namespaces,
        line,
        out,
    );
    command_done(stored)
}

// Names moved together: 0, or 1 where the table does not pass with its summary.
pub fn luspemaro_compact(
    records: &mut [Record],
    count: usize,
    area: &mut [u8],
    summary: &[u64],
) -> u8
    ensures result { result ≡ (lent_compaction records.old count area.old summary.now).number }
    ensures area { area.new ≡ (lent_compaction records.old count area.old summary.now).area }
    ensures records { map meant records.new
        ≡ (lent_compaction records.old count area.old summary.now).records }
{
    let mut words = no_words();
    let lent = copy_in(records, summary.len(), &mut words);
    match compact_words(&mut words, lent, count, area, summary) {
        Ok(moved) => {
            copy_back(records, moved.from, moved.to, &words);
            0
        }
        Err(refusal) => refusal.number(),
    }
}

// The whole walk of a reader: finds at the front of `found`, the names that were asked below at the front of `pending`.
pub fn luspemaro_collect(
    records: &[Record],
    count: usize,
    reader: u8,
    area: &[u8],
    summary: &[u64],
    option: u8,
    scratch: &mut [u8],
    found: &mut [u8],
    pending: &mut [u8],
) -> Outcome
    ensures result { result ≡ walk_outcome (collected_by reader (lent_seen reader records.now count area.now summary.now)
        option scratch.old found.old pending.old) }
    ensures scratch { scratch.new ≡ scratch_of reader (lent_seen reader records.now count area.now summary.now)
        option scratch.old found.old pending.old }
    ensures found { found.new ≡ found_of reader (lent_seen reader records.now count area.now summary.now)
        option scratch.old found.old pending.old }
    ensures pending { pending.new ≡ pending_of reader (lent_seen reader records.now count area.now summary.now)
        option scratch.old found.old pending.old }
    ensures demand3 { OwesOutcome reader (lent_table records.now count area.now summary.now)
        (lent_seen reader records.now count area.now summary.now)
        option scratch.old found.old pending.old
        result found.new pending.new }
    ensures numbers { allowed_outcome result ≡ true }
{
    let mut words = no_words();
    let n = copy_in(records, count, &mut words);
    collect_words(
        &words[..n],
        count,
        reader,
        area,
        summary,
        option,
        scratch,
        found,
        pending,
    )
}

// That over records, each as a number.
fn collect_words(
    words: &[u64],
    count: usize,
    reader: u8,
    area: &[u8],
    summary: &[u64],
    option: u8,
    scratch: &mut [u8],
    found: &mut [u8],
    pending: &mut [u8],
) -> Outcome
    ensures result { result ≡ walk_outcome (collected_by reader (words_seen reader words.now count area.now summary.now)
        option scratch.old found.old pending.old) }
    ensures scratch { scratch.new ≡ scratch_of reader (words_seen reader words.now count area.now summary.now)
        option scratch.old found.old pending.old }
    ensures found { found.new ≡ found_of reader (words_seen reader words.now count area.now summary.now)
        option scratch.old found.old pending.old }
    ensures pending { pending.new ≡ pending_of reader (words_seen reader words.now count area.now summary.now)
        option scratch.old found.old pending.old }
    ensures demand3 { OwesOutcome reader (words_table words.now count area.now summary.now)
        (words_seen reader words.now count area.now summary.now)
        option scratch.old found.old pending.old
        result found.new pending.new }
    ensures numbers { allowed_outcome result ≡ true }
{
    Outcome::from(collector::collect_words(
        words, count, reader, area, summary, option, scratch, found, pending,
    ))
}

// The same over a packed table.
pub fn luspemaro_collect_packed(
    table: &[u8],
    reader: u8,
    option: u8,
    scratch: &mut [u8],
    found: &mut [u8],
    pending: &mut [u8],
) -> Outcome
    ensures result { result ≡ walk_outcome (collected_by reader (packed_seen reader table.now)
        option scratch.old found.old pending.old) }
    ensures scratch { scratch.new ≡ scratch_of reader (packed_seen reader table.now)
        option scratch.old found.old pending.old }
    ensures found { found.new ≡ found_of reader (packed_seen reader table.now)
        option scratch.old found.old pending.old }
    ensures pending { pending.new ≡ pending_of reader (packed_seen reader table.now)
        option scratch.old found.old pending.old }
    ensures demand3 { OwesOutcome reader (packed_table table.now)
        (packed_seen reader table.now) option scratch.old found.old pending.old
        result found.new pending.new }
    ensures numbers { allowed_outcome result ≡ true }
{
    Outcome::from(collector::collect_packed(table, reader, option, scratch, found, pending))
}

// The line writer: the line of these parts at the front of `out`. The criteria are those that CHILDINFO names: 1 SUBSCRIBED, 2
// SPECIAL-USE. A number with another bit is refused with 12, first.
pub fn luspemaro_write_line(attributes: u16, name: &[u8], criteria: u8, out: &mut [u8]) -> Outcome
    ensures { Into (written (members attributes) name.now criteria out.old) out.old out.new result }
{
    let set = Attributes { bits: attributes };
    let named = Criteria { bits: criteria };
    written_outcome(list_line::write_line(set, name, named, out), 0, 0)
}

// The line reader.
pub fn luspemaro_read_line(line: &[u8]) -> LineParts
    ensures { result ≡ parts_of (read_line line.now) }
{
    LineParts::from(line_reader::read_line(line))
}

// The joined command of these parts at the front of `out`. The options are a set by its number: of the selection 1 SUBSCRIBED, 2 REMOTE,
// 4 RECURSIVEMATCH, 8 SPECIAL-USE, of the return options 16 SUBSCRIBED, 32 CHILDREN, 64 SPECIAL-USE. The patterns are packed, each as a
// length byte and its bytes.
pub fn luspemaro_join(
    tag: &[u8],
    options: u8,
    reference: &[u8],
    patterns: &[u8],
    out: &mut [u8],
) -> Outcome
    ensures { Into (joined_into tag.now options reference.now patterns.now out.old)
        out.old out.new result }
{
    written_outcome(
        command_writer::join(tag, options, reference, patterns, out),
        0,
        0,
    )
}
