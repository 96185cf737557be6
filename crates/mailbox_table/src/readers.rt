// The rows of an index that a reader sees (document 02, W9), moved to its front in one pass. A row shares with the one before it the
// least of what the rows from that one on share, since the names ascend.
ghost use Rattle.std.specs.Prelude.{◌≡◌, ◌++◌, ◌<◌, length, drop};
ghost use Rattle.records.specs.Words.{record_of};
ghost use Rattle.mailbox_table.specs.Words.{with_shared};
ghost use Rattle.mailbox_table.specs.Seen.{member_of, seen_words};

use super::rows::Row;
use octets::Members;

// No name shares more than it has bytes.
const MOST_SHARED: usize = 255;

// "reader 0 to 7"
pub const MAX_READER: u8 = 7;

// The readers that see a row: a set with eight members, bit by bit as document 02 numbers them.
#[derive(Clone, Copy)]
pub struct Readers {
    pub bits: u8,
}

impl Readers {
    pub const ALL: Readers = Readers { bits: 255 };

    // The set of this reader alone, and of none above reader 7.
    pub fn one(reader: u8) -> Readers
        ensures { result.bits ≡ member_of reader }
    {
        if MAX_READER < reader {
            return Readers { bits: 0 };
        }
        Readers { bits: 1 << reader }
    }
}

impl Members for Readers {
    ghost number = { λ s. s.bits };

    ghost width = { 8 };

    fn number(self) -> u16 {
        u16::from(self.bits)
    }

    fn of_number(n: u16) -> Readers {
        Readers {
            bits: (n % 256) as u8,
        }
    }
}

// The readers of the record of a word.
pub fn readers_of(word: u64) -> Readers
    ensures { result.bits ≡ (record_of word).readers }
{
    Readers {
        bits: (word / 281474976710656 % 256) as u8,
    }
}

// The words of the rows that the reader sees, an index of those rows where the words are one; how many they are. The words after them
// stay. A reader above 7 sees none.
pub fn see_rows(words: &mut [u64], reader: u8) -> usize
    ensures { (result ≡ length (seen_words reader words.old))
        × (words.new ≡ seen_words reader words.old ++ drop result words.old) }
{
    let own = Readers::one(reader);
    let mut seen = 0;
    let mut low = MOST_SHARED;
    for i in 0..words.len() {
        let word = words[i];
        let row = Row::of_word(word);
        low = low.min(row.shared);
        let readers = readers_of(word);
        if readers.has_some(own) {
            words[seen] = with_shared(word, low);
            seen += 1;
            low = MOST_SHARED;
        }
    }
    seen
}

// The word of the same record with so many bytes shared.
fn with_shared(word: u64, shared: usize) -> u64
    requires { shared < 256 }
    ensures { result ≡ with_shared shared word }
{
    let row = Row::of_word(word);
    word - 1099511627776 * (row.shared as u64) + 1099511627776 * (shared as u64)
}
