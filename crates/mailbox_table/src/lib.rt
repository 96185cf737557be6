// The mailbox table of document 01: flags and rows, check 1, and an index of the rows.
//
// The names stay where the caller has them, in the area of name bytes of a table of records or in the packed table, which is its
// own area. The index is one number for each row (`rows::Row::word`), in memory that the caller lends: where the row's name lies
// in the area, its flags, and how many bytes it shares with the name before. What works on rows asks the index and never counts
// bytes of the packed form. A record is such a number too, without what is shared: records and packed rows go through one check. Of the
// index of a table that passes, the rows that a reader sees are an index too (`readers`), so that what works on rows knows of no readers.
#![tactic(auto)]

pub mod flags;
mod indexed;
mod inferiors;
mod layout;
mod link;
mod packed;
mod raw;
mod readers;
pub mod rows;
pub mod scan;

ghost use Rattle.std.specs.Prelude.{◌≡◌, cond, is_some, map, length, take, replicate};
ghost use Rattle.listing_rules.specs.Table.{passes, packed_table};
ghost use Rattle.listing_rules.specs.Records.{packed_records};
ghost use Rattle.records.specs.Words.{cell_of, record_of};
ghost use Rattle.records.specs.Lent.{word_table};
ghost use Rattle.mailbox_table.specs.Index.{Indexes};

pub use indexed::IndexedRows;
use packed::find_rows;
use raw::find_words;
pub use readers::{MAX_READER, Readers, readers_of, see_rows};
pub use records::{MAX_ROWS, no_words};

// Check 1: whether the packed table passes.
pub fn check(table: &[u8]) -> bool
    ensures { result ≡ passes (packed_table table.now) }
{
    let mut words = no_words();
    index(table, &mut words).is_some()
}

// Check 1, and the index of the rows at the front of `words`: with room for 512 words it fails exactly if the table does not
// pass. The words after the rows stay as they were lent. Where it fails, every word is zero.
pub fn index(table: &[u8], words: &mut [u64]) -> Option<usize>
    ensures { Indexes table.now (packed_table table.now) (packed_records table.now)
        (map cell_of (packed_records table.now)) words.old words.new result }
{
    let found = find_rows(table, words);
    clear_if_none(found, words);
    found
}

// Check 1 of the first `count` of the records, and the index of their rows as `index` gives it. The count stands beside the records, since
// the promise speaks of one above their number, too.
pub fn index_words(area: &[u8], raw: &[u64], count: usize, words: &mut [u64]) -> Option<usize>
    ensures { Indexes area.now (word_table area.now raw.now count)
        (take count (map record_of raw.now)) (take count raw.now) words.old words.new result }
{
    let found = find_words(area, raw, count, words);
    clear_if_none(found, words);
    found
}

// Where nothing was found, zeros in all words; else they stay.
fn clear_if_none(found: Option<usize>, words: &mut [u64])
    ensures { words.new ≡ cond (is_some found) words.old (replicate (length words.old) 0) }
{
    if found.is_none() {
        words.fill(0);
    }
}
