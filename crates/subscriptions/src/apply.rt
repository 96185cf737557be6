// A plan done on words and area, case by case.
ghost use Rattle.std.specs.Prelude.{◌≡◌, ◌+◌, ◌-◌, length, get_or, set};
ghost use Rattle.listing_rules.specs.Subscriptions.{overwritten};
ghost use Rattle.subscriptions.specs.Applied.{FlagFits, InsertFits, RemoveFits, with_flags, new_word, inserted_at, removed_at, freed};

use super::Change;
use super::shift::{clear_bytes, insert_word, remove_word, set_flags};
use mailbox_table::rows::Row;
use octets::put_all;

// No word changed.
pub(crate) fn unchanged(count: usize) -> Change
    ensures { result ≡ record { from = 0; to = 0; count = count } }
{
    Change {
        from: 0,
        to: 0,
        count,
    }
}

// Row k with these flags.
pub(crate) fn flag_row(words: &mut [u64], count: usize, k: usize, flags: u16) -> Change
    requires { FlagFits words.old count k flags }
    ensures { (result ≡ record { from = k; to = k + 1; count = count })
        × (words.new ≡ set words.old k (with_flags flags (get_or words.old k 0))) }
{
    set_flags(words, k, flags);
    Change {
        from: k,
        to: k + 1,
        count,
    }
}

// A row 0002 at place k, its name at a start.
pub(crate) fn insert_row(
    words: &mut [u64],
    count: usize,
    area: &mut [u8],
    k: usize,
    start: usize,
    name: &[u8],
) -> Change
    requires { InsertFits words.old count area.old name.now k start }
    ensures { (result ≡ record { from = k; to = count + 1; count = count + 1 })
        × (words.new ≡ inserted_at words.old count k (new_word start (length name.now)))
        × (area.new ≡ overwritten area.old start name.now) }
{
    insert_word(words, count, k, start, name.len());
    put_all(area, start, name);
    let rows = count + 1;
    Change {
        from: k,
        to: rows,
        count: rows,
    }
}

// Row k gone, with its name.
pub(crate) fn remove_row(words: &mut [u64], count: usize, area: &mut [u8], k: usize) -> Change
    requires { RemoveFits words.old count area.old k }
    ensures { (result ≡ record { from = k; to = count; count = count - 1 })
        × (words.new ≡ removed_at words.old count k)
        × (area.new ≡ freed area.old (get_or words.old k 0)) }
{
    let row = Row::of_word(words[k]);
    remove_word(words, count, k);
    clear_bytes(area, row.start, row.len);
    Change {
        from: k,
        to: count,
        count: count - 1,
    }
}
