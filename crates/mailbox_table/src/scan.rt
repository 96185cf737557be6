// Which rows lie below a name, without looking at rows that cannot; and the marks by which a caller tells the rows it looks for.
//
// The names ascend, so those that begin with the name stand together, and the shared lengths of the index say where they end.
// Among them "Foo-x" stands before "Foo/x", and all that stands after "Foo/x" without a slash there ends the search.
ghost use Rattle.std.specs.Prelude.{◌≡◌, ◌+◌, ◌<◌, length};
ghost use Rattle.octets.specs.Sets.{contains};
ghost use Rattle.mailbox_table.specs.Below.{marks_of, with_marks, prefix_of, below_from, Begins};

use super::rows::{Row, name_of};
use octets::{SLASH, byte_at};

// The bits of a word below this tell its row. Those above it hold the readers of its record, until the rows that a reader sees are
// chosen (`see_rows`), and are then free for marks.
const MARKS: u64 = 281474976710656;

// What the row of a word is marked with: a set of members that the caller names.
pub fn marks_of(word: u64) -> u16
    ensures { result ≡ marks_of word }
{
    (word / MARKS % 65536) as u16
}

// The word of the same row with these marks.
pub fn with_marks(word: u64, marks: u16) -> u64
    ensures { result ≡ with_marks marks word }
{
    word % MARKS + MARKS * (marks as u64)
}

// Whether the row of a word has all of these marks, as every row has where none is asked.
fn is_marked(word: u64, marks: u16) -> bool
    ensures { result ≡ contains (marks_of word) marks }
{
    marks_of(word) & marks == marks
}

// Whether some row from row i on lies below the first `len` bytes of row i's name and has all of these marks. The promise is for the
// words that `index` made, or what `see_rows` leaves of them; over other words it answers something, inside the lent memory.
pub fn some_below(area: &[u8], words: &[u64], marks: u16, i: usize, len: usize) -> bool
    ensures { Begins area.now words.now i len →
        result ≡ below_from area.now words.now marks (prefix_of area.now words.now i len) i }
{
    if words.len() <= i {
        return false;
    }
    let own = byte_at(name_of(area, Row::of_word(words[i])), len);
    if SLASH < own {
        return false;
    }
    if (own == SLASH) & is_marked(words[i], marks) {
        return true;
    }
    some_after(area, words, marks, i, len)
}

// Whether some row after row i lies below those bytes and has all of these marks.
fn some_after(area: &[u8], words: &[u64], marks: u16, i: usize, len: usize) -> bool
    requires { i < length words.now }
    ensures { Begins area.now words.now i len →
        result ≡ below_from area.now words.now marks (prefix_of area.now words.now i len) (i + 1) }
{
    for k in i + 1..words.len() {
        let row = Row::of_word(words[k]);
        if row.shared < len {
            return false;
        }
        let b = byte_at(name_of(area, row), len);
        if SLASH < b {
            return false;
        }
        if (b == SLASH) & is_marked(words[k], marks) {
            return true;
        }
    }
    false
}
