// Words and bytes changed in place: flags set, a word put in or taken out, a name cleared. Rows move by one place; the loop of an
// insertion begins at the far end, that of a removal at the near one, so that no word is lost.
ghost use Rattle.std.specs.Prelude.{◌≡◌, ◌+◌, ◌≤◌, ◌<◌, length, get_or, set, replicate};
ghost use Rattle.listing_rules.specs.Subscriptions.{overwritten};
ghost use Rattle.subscriptions.specs.Applied.{with_flags, new_word, inserted_at, removed_at};

use mailbox_table::Readers;
use records::Record;

// The flags of a row that is put in: subscribed and nothing else.
const FRESH: u16 = 2;

// "An inserted row is seen by all eight."
const SEEN_BY: Readers = Readers::ALL;

// Word k with other flags.
pub(crate) fn set_flags(words: &mut [u64], k: usize, flags: u16)
    requires { k < length words.old }
    ensures { words.new ≡ set words.old k (with_flags flags (get_or words.old k 0)) }
{
    let w = words[k];
    words[k] = w - w % 65536 + (flags as u64);
}

// The word of a row put in at place k, its name of `len` bytes at a start; the rows from there on move up by one.
pub(crate) fn insert_word(words: &mut [u64], count: usize, k: usize, start: usize, len: usize)
    requires { (k ≤ count) × (count < length words.old) × (start < 65536) × (len < 256) }
    ensures { words.new ≡ inserted_at words.old count k (new_word start len) }
{
    let word = u64::from(Record {
        flags: FRESH,
        start: start as u16,
        len: len as u8,
        readers: SEEN_BY.bits,
    });
    put_word(words, count, k, word);
}

// A word put in at place k; the words from there on move up by one, over the first spare word.
pub(crate) fn put_word(words: &mut [u64], count: usize, k: usize, word: u64)
    requires { (k ≤ count) × (count < length words.old) }
    ensures { words.new ≡ inserted_at words.old count k word }
{
    for i in (k..count).rev() {
        words[i + 1] = words[i];
    }
    words[k] = word;
}

// Word k taken out; the rows after it move down by one, and the place that the last one leaves is zero.
pub(crate) fn remove_word(words: &mut [u64], count: usize, k: usize)
    requires { (k < count) × (count ≤ length words.old) }
    ensures { words.new ≡ removed_at words.old count k }
{
    let last = count - 1;
    for i in k..last {
        words[i] = words[i + 1];
    }
    words[last] = 0;
}

// Zeros in the `len` bytes from a start on.
pub(crate) fn clear_bytes(area: &mut [u8], start: usize, len: usize)
    requires { start + len ≤ length area.old }
    ensures { area.new ≡ overwritten area.old start (replicate len 0) }
{
    area[start..start + len].fill(0);
}
