// The last condition of check 1: no row lies below a row with no inferiors.
ghost use Rattle.std.specs.Prelude.{◌≡◌, ◌<◌, length, get_or};
ghost use Rattle.listing_rules.specs.Table.{none_below};
ghost use Rattle.mailbox_table.specs.Index.{row_at_word, rows_at};
ghost use Rattle.mailbox_table.specs.Below.{all_none_below};

use super::flags::Flags;
use super::indexed::IndexedRows;
use super::rows::Row;
use super::scan::some_below;
use octets::Members;

// The empty set of marks, which every row has.
const ANY_ROW: u16 = 0;

// Whether no row lies below a row with no inferiors.
pub(crate) fn inferiors_pass(rows: IndexedRows) -> bool
    ensures { result ≡ all_none_below (rows_at rows.entry.area.now rows.entry.words.now) }
{
    for i in 0..rows.words.len() {
        if !row_passes(rows, i) {
            return false;
        }
    }
    true
}

// Whether row i has inferiors or no row lies below it.
fn row_passes(rows: IndexedRows, i: usize) -> bool
    requires { i < length rows.words.now }
    ensures { result ≡ none_below (rows_at rows.entry.area.now rows.entry.words.now)
        (row_at_word rows.entry.area.now (get_or rows.entry.words.now i 0)) }
{
    let row = Row::of_word(rows.words[i]);
    if !row.flags.has(Flags::NO_INFERIORS) {
        return true;
    }
    !some_below(rows.area, rows.words, ANY_ROW, i, row.len)
}
