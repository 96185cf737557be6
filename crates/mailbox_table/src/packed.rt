// The packed table: turned into records first, by one pass over the bytes with a word for each row and no judgement of flags and
// names, and then checked as records are. Its names never overlap.
ghost use Rattle.std.specs.Prelude.{◌≡◌, map, ◌+◌, ◌*◌, get_or};
ghost use Rattle.listing_rules.specs.Table.{packed_table};
ghost use Rattle.listing_rules.specs.Records.{packed_records};
ghost use Rattle.mailbox_table.specs.Find.{Finds};
ghost use Rattle.records.specs.Words.{cell_of};
ghost use Rattle.mailbox_table.specs.Words.{word_of, Packs};
ghost use Rattle.mailbox_table.specs.Below.{with_marks};
ghost use Rattle.mailbox_table.specs.Packed.{step_at, Placed, Splits};

use super::flags::Flags;
use super::link::rows_pass;
use super::rows::Row;
use super::scan::with_marks;
use octets::{byte_at, wide};
use records::{MAX_BYTES, MAX_ROWS};

// Flags, readers and length come before a name.
const HEAD: usize = 4;

// Check 1 of the packed table, and the index of its rows. Where it fails, the words are what the passes left.
pub(crate) fn find_rows(table: &[u8], words: &mut [u64]) -> Option<usize>
    ensures { Finds table.now (packed_table table.now) (packed_records table.now)
        (map cell_of (packed_records table.now)) words.old words.new result }
{
    let n = split_rows(table, words)?;
    if !rows_pass(table, &mut words[..n]) {
        return None;
    }
    Some(n)
}

// The rows of the table as words, if they fill it exactly and are no more than there is room for. Where it fails, the words are
// what the pass left.
pub(crate) fn split_rows(table: &[u8], words: &mut [u64]) -> Option<usize>
    ensures { Splits table.now words.old words.new result }
{
    if MAX_BYTES < table.len() {
        return None;
    }
    let limit = words.len().min(MAX_ROWS);
    let mut n = 0;
    let mut at = 0;
    // A `for` would be no plainer: the place goes on by the length of each row.
    while at < table.len() {
        if limit <= n {
            return None;
        }
        let row = row_at(table, at)?;
        words[n] = word_at(table, at, row);
        n += 1;
        at = row.start + row.len;
    }
    Some(n)
}

// The word of the row that begins at a place, with its record's readers above it, which stand before the length.
fn word_at(table: &[u8], at: usize, row: Row) -> u64
    requires placed { Placed table.now at }
    requires packs { Packs row }
    ensures { result ≡ with_marks (get_or table.now (at + 2) 0) (word_of row) }
{
    let readers = byte_at(table, at + 2);
    with_marks(row.word(), readers as u16)
}

// The row that begins at a place, if it ends inside the table.
fn row_at(table: &[u8], at: usize) -> Option<Row>
    requires { Placed table.now at }
    ensures { result ≡ step_at table.now at }
{
    let [high, low, _, len, behind @ ..] = &table[at..] else {
        return None;
    };
    let len = wide(*len);
    if behind.len() < len {
        return None;
    }
    let flags = Flags {
        bits: u16::from_be_bytes([*high, *low]),
    };
    Some(Row {
        flags,
        start: at + HEAD,
        len,
        shared: 0,
    })
}
