// The summary beside the table (document 02, W13): for each row, as one number of four times 16 bits, how many rows lie strictly below its
// name. Counted afresh over an index, and compared with what is lent.
//
// The names ascend, so those that begin with a row's name stand together after it; the shared lengths of the index say where they end. Among
// them "Foo-x" stands between "Foo" and "Foo/x": it is passed over, and all that stands after "Foo/x" without a slash there ends the count.
#![tactic(auto)]

ghost use Rattle.std.specs.Prelude.{◌≡◌, cond, map, ◌+◌, ◌<◌, ◌≤◌, length, take, drop};
ghost use Rattle.std.proofs.Math.Seq.{paste};
ghost use Rattle.listing_rules.specs.Table.{passes};
ghost use Rattle.listing_rules.specs.Summary.{counted, summarized};
ghost use Rattle.records.specs.Words.{record_of};
ghost use Rattle.records.specs.Numbers.{summary_word, summary_of};
ghost use Rattle.records.specs.Lent.{words_table};
ghost use Rattle.mailbox_table.specs.Index.{Indexes, nth_row, nth_name, rows_at};
ghost use Rattle.mailbox_table.specs.Below.{prefix_of};
ghost use Rattle.summary.specs.Counts.{one_word, sum_below, fresh_words, words_agree, numbered_table, number_or_0};

use mailbox_table::flags::Flags;
use mailbox_table::rows::{Row, name_of};
use mailbox_table::{IndexedRows, index_words};
use octets::{Members, Refusal, SLASH, byte_at};
use records::no_words;

// One row more in each of the four numbers, subscribed local lowest.
const SUBSCRIBED_LOCAL: u64 = 1;

const SUBSCRIBED_REMOTE: u64 = 65536;

const EXISTING_LOCAL: u64 = 4294967296;

const EXISTING_REMOTE: u64 = 281474976710656;

// A number where something holds, and else 0.
pub fn if_so(holds: bool, number: u64) -> u64
    ensures { result ≡ cond holds number 0 }
{
    if holds { number } else { 0 }
}

// What a row with these flags adds to the summary of a row that it lies below.
pub fn one_of(flags: Flags) -> u64
    ensures { result ≡ one_word flags.bits }
{
    let subscribed = flags.has(Flags::SUBSCRIBED);
    let exists = flags.has(Flags::EXISTS);
    if flags.has(Flags::REMOTE) {
        return if_so(subscribed, SUBSCRIBED_REMOTE) + if_so(exists, EXISTING_REMOTE);
    }
    if_so(subscribed, SUBSCRIBED_LOCAL) + if_so(exists, EXISTING_LOCAL)
}

// Check 1 with the summary: the first `count` of the records, each as a number (`word_of` of records/specs), pass over the area of name bytes, and their summary
// agrees. The index of their rows lies at the front of `words` then, as `mailbox_table::index_words` gives it; else every word is zero.
pub fn index_summed(
    area: &[u8],
    raw: &[u64],
    count: usize,
    sums: &[u64],
    words: &mut [u64],
) -> Option<usize>
    ensures { Indexes area.now (words_table raw.now count area.now sums.now)
        (take count (map record_of raw.now)) (take count raw.now) words.old words.new result }
{
    let n = index_words(area, raw, count, words)?;
    let rows = IndexedRows {
        area,
        words: &words[..n],
    };
    if !agrees(rows, sums) {
        words.fill(0);
        return None;
    }
    Some(n)
}

// Whether they pass.
pub fn check_summed(raw: &[u64], count: usize, area: &[u8], sums: &[u64]) -> bool
    ensures { result ≡ passes (words_table raw.now count area.now sums.now) }
{
    let mut words = no_words();
    index_summed(area, raw, count, sums, &mut words).is_some()
}

// A caller's first summary: the numbers of the rows are what counting afresh gives, the others stay; or the refusal of a table that does not
// pass without a summary, or has more rows than there are numbers, and all stay.
pub fn summarize_words(
    raw: &[u64],
    count: usize,
    area: &[u8],
    sums: &mut [u64],
) -> Result<(), Refusal>
    ensures result { number_or_0 result ≡ (summarized (numbered_table raw.now count area.now sums.old)
        (map summary_of sums.old)).number }
    ensures summary { map summary_of sums.new
        ≡ (summarized (numbered_table raw.now count area.now sums.old) (map summary_of sums.old)).summary }
{
    if sums.len() < count {
        return Err(Refusal::Table);
    }
    let mut words = no_words();
    let n = index_words(area, raw, count, &mut words).ok_or(Refusal::Table)?;
    let rows = IndexedRows {
        area,
        words: &words[..n],
    };
    count_all(rows, sums);
    Ok(())
}

// The summary of row i, counted afresh.
fn count_below(rows: IndexedRows, i: usize) -> u64
    requires { i < length rows.words.now }
    ensures { result ≡ summary_word (counted (rows_at rows.entry.area.now rows.entry.words.now)
        (nth_name rows.entry.area.now rows.entry.words.now i)) }
{
    let row = Row::of_word(rows.words[i]);
    count_after(rows, i, row.len)
}

// The summary of every row, counted afresh, at the front of `sums`; the numbers after them stay.
fn count_all(rows: IndexedRows, sums: &mut [u64])
    requires { length rows.words.now ≤ length sums.old }
    ensures { sums.new ≡ paste sums.old 0 (fresh_words rows.entry.area.now rows.entry.words.now) (length rows.entry.words.now) }
{
    for i in 0..rows.words.len() {
        sums[i] = count_below(rows, i);
    }
}

// What the rows after row i add up to that lie below the first `len` bytes of its name.
fn count_after(rows: IndexedRows, i: usize, len: usize) -> u64
    requires { (i < length rows.words.now) × (len ≤ (nth_row rows.words.now i).len) }
    ensures { result ≡ sum_below rows.entry.area.now (prefix_of rows.entry.area.now rows.entry.words.now i len)
        (drop (i + 1) rows.entry.words.now) }
{
    let mut sum = 0;
    for k in i + 1..rows.words.len() {
        let row = Row::of_word(rows.words[k]);
        if row.shared < len {
            return sum;
        }
        let b = byte_at(name_of(rows.area, row), len);
        if SLASH < b {
            return sum;
        }
        sum += if_so(b == SLASH, one_of(row.flags));
    }
    sum
}

// Whether the summary that is lent is what counting afresh gives, row by row; that of spare records is not looked at.
fn agrees(rows: IndexedRows, sums: &[u64]) -> bool
    ensures { result ≡ words_agree rows.entry.area.now rows.entry.words.now sums.now }
{
    if sums.len() < rows.words.len() {
        return false;
    }
    for i in 0..rows.words.len() {
        if count_below(rows, i) != sums[i] {
            return false;
        }
    }
    true
}
