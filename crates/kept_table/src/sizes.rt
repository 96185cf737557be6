// Whether what is stored lies within lent memory of document 01's sizes: what a command or a walk looks at first.
ghost use Rattle.std.specs.Prelude.{◌≡◌, ◌&&◌};
ghost use Rattle.kept_table.specs.Kept.{rows_fit, entries_fit};

use crate::Lengths;
use crate::outcome::{MAX_NAMESPACES, MAX_TABLE};
use crate::store::MAX_NUMBERS;

// Of the table: with so many bytes of its area, and so many numbers for its records and their summary.
pub(crate) fn is_held(stored: Lengths, table: usize, records: usize) -> bool
    ensures { result ≡ rows_fit stored table records }
{
    (stored.table <= MAX_TABLE) & ((MAX_TABLE <= table) & (MAX_NUMBERS <= records))
}

// Of the table and of the namespace list.
pub(crate) fn is_within(stored: Lengths, table: usize, records: usize, namespaces: usize) -> bool
    ensures { result ≡ (rows_fit stored table records && entries_fit stored namespaces) }
{
    let held = is_held(stored, table, records);
    held & ((stored.namespaces <= MAX_NAMESPACES) & (MAX_NAMESPACES <= namespaces))
}
