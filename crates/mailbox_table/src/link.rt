// The check that records and packed rows share, over words in row order and in place: each row is judged against the name before
// it, wherever the bytes of the two lie, and its word gets what they share. Its readers, above those bits, stay.
ghost use Rattle.std.specs.Prelude.{◌≡◌, [], ◌≤◌, length};
ghost use Rattle.listing_rules.specs.Orders.{byte_order, is_lt};
ghost use Rattle.mailbox_table.specs.Words.{word_of, Packs};
ghost use Rattle.mailbox_table.specs.Below.{marks_of, with_marks};
ghost use Rattle.mailbox_table.specs.Shared.{shared_len};
ghost use Rattle.mailbox_table.specs.Link.{name_in, step_of, linked, Links, words_pass};

use super::indexed::IndexedRows;
use super::inferiors::inferiors_pass;
use super::rows::{Row, name_of};
use super::scan::{marks_of, with_marks};
use names::lawful_name;

// Check 1 of rows, whatever form they come from; where they pass, the words become their index.
pub(crate) fn rows_pass(area: &[u8], words: &mut [u64]) -> bool
    requires { length words.old ≤ 512 }
    ensures { Links area.now words.old words.new (words_pass area.now words.old) result }
{
    if !link_rows(area, words) {
        return false;
    }
    inferiors_pass(IndexedRows { area, words })
}

// Whether each name lies in the area, flags and names are lawful, and the names ascend: then the words are the index of their
// rows. Else they are what the pass left.
fn link_rows(area: &[u8], words: &mut [u64]) -> bool
    ensures { Links area.now words.old words.new
        (linked area.now [] words.old) result }
{
    let mut previous = Row::of_word(0);
    for word in words.iter_mut() {
        let Some(row) = next_row(area, previous, *word) else {
            return false;
        };
        *word = relinked(row, *word);
        previous = row;
    }
    true
}

// The word of a row that is linked now: what stands above the row, its record's readers, stays.
fn relinked(row: Row, word: u64) -> u64
    requires { Packs row }
    ensures { result ≡ with_marks (marks_of word) (word_of row) }
{
    with_marks(row.word(), marks_of(word))
}

// The row of a word, linked to the row before it.
fn next_row(area: &[u8], previous: Row, word: u64) -> Option<Row>
    ensures { result ≡ step_of area.now (name_in area.now previous) word }
{
    let row = Row::of_word(word);
    if area.len() < row.start + row.len {
        return None;
    }
    if !row.flags.lawful() {
        return None;
    }
    let name = name_of(area, row);
    if !lawful_name(name) {
        return None;
    }
    let before = name_of(area, previous);
    let shared = common(before, name);
    if !ascends_at(before, name, shared) {
        return None;
    }
    Some(Row { shared, ..row })
}

// How many bytes the two begin with alike.
fn common(a: &[u8], b: &[u8]) -> usize
    ensures { result ≡ shared_len a.now b.now }
{
    let n = a.len().min(b.len());
    for i in 0..n {
        if a[i] != b[i] {
            return i;
        }
    }
    n
}

// Whether a comes before b by bytes, a prefix first: the first place where they differ decides.
fn ascends_at(a: &[u8], b: &[u8], shared: usize) -> bool
    requires { shared ≡ shared_len a.now b.now }
    ensures { result ≡ is_lt (byte_order a.now b.now) }
{
    a.get(shared) < b.get(shared)
}
