// Names without overlap. Each byte of a name is marked in a map of the area, and a byte that is marked already tells: the time goes
// with the bytes of the names, and no row is held against another.
ghost use Rattle.std.specs.Prelude.{◌≡◌, map};
ghost use Rattle.listing_rules.specs.Records.{all_apart};
ghost use Rattle.records.specs.Words.{record_of};
ghost use Rattle.mailbox_table.specs.Layout.{Maps, Marked, Mapped};

use super::rows::Row;
use octets::filled;
use records::MAX_BYTES;

// Whether no byte belongs to two names.
pub(crate) fn lie_apart(words: &[u64]) -> bool
    requires { Mapped words.now }
    ensures { result ≡ all_apart (map record_of words.now) }
{
    // No map is made for no rows.
    if words.len() == 0 {
        return true;
    }
    let mut used = filled(false);
    for i in 0..words.len() {
        let row = Row::of_word(words[i]);
        if !mark_name(&mut used, row.start, row.len) {
            return false;
        }
    }
    true
}

// Marks the bytes of a name, and answers whether none of them was marked. The loop has no way out before its end, so that the machine can
// take many bytes at a time.
fn mark_name(used: &mut [bool; MAX_BYTES], start: usize, len: usize) -> bool
    requires { Maps used.old start len }
    ensures { Marked used.old used.new start len result }
{
    let mut taken = false;
    for k in start..start + len {
        taken |= used[k];
        used[k] = true;
    }
    !taken
}
