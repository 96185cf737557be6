// Records over an area of name bytes, as raw words: copied into the lent words, checked, and held against each other's bytes.
ghost use Rattle.std.specs.Prelude.{◌≡◌, map, ◌++◌, ◌≤◌, length, take, drop};
ghost use Rattle.records.specs.Words.{record_of};
ghost use Rattle.records.specs.Lent.{word_table};
ghost use Rattle.mailbox_table.specs.Find.{Finds};

use super::layout::lie_apart;
use super::link::rows_pass;
use records::{MAX_BYTES, MAX_ROWS};

// Check 1 of the records, and the index of their rows. Where it fails, the words are what the passes left.
pub(crate) fn find_words(area: &[u8], raw: &[u64], count: usize, words: &mut [u64]) -> Option<usize>
    ensures { Finds area.now (word_table area.now raw.now count)
        (take count (map record_of raw.now)) (take count raw.now) words.old words.new result }
{
    if MAX_BYTES < area.len() {
        return None;
    }
    if raw.len().min(words.len()).min(MAX_ROWS) < count {
        return None;
    }
    copy_words(raw, count, words);
    if !rows_pass(area, &mut words[..count]) {
        return None;
    }
    // The names are now known to lie in the area and not to be empty.
    if !lie_apart(&words[..count]) {
        return None;
    }
    Some(count)
}

// The first `count` of the raw words, to the front of `words`.
fn copy_words(raw: &[u64], count: usize, words: &mut [u64])
    requires { (count ≤ length raw.now) × (count ≤ length words.old) }
    ensures { words.new ≡ take count raw.now ++ drop count words.old }
{
    for i in 0..count {
        words[i] = raw[i];
    }
}
