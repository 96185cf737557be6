// What a frame comes to: what is stored after it, and how many bytes of output lie at the front of `out`.
ghost use Rattle.std.specs.Prelude.{◌≡◌, true};
ghost use Rattle.kept_table.specs.Kept.{lengths_is, outcome_is};

use crate::Lengths;

// "added behind the stored bytes (16,384 ..)"; and as many bytes of names beside the records.
pub const MAX_TABLE: usize = 16384;

// "added behind the stored bytes (.. and 1,024; no room: .. 2, nothing added)"
pub const MAX_NAMESPACES: usize = 1024;

#[derive(Clone, Copy)]
pub struct Outcome {
    pub stored: Lengths,
    pub written: usize,
}

// A line written, and nothing more.
pub fn said(stored: Lengths, written: usize) -> Outcome
    ensures { result ≡ outcome_is stored written }
{
    Outcome { stored, written }
}

// So many bytes of the table stored now.
pub fn with_rows(stored: Lengths, table: usize, written: usize) -> Outcome
    ensures { result ≡ outcome_is (lengths_is table stored.namespaces stored.edited) written }
{
    let stored = Lengths { table, ..stored };
    Outcome { stored, written }
}

// So many bytes of the namespace list stored now.
pub fn with_entries(stored: Lengths, namespaces: usize, written: usize) -> Outcome
    ensures { result ≡ outcome_is (lengths_is stored.table namespaces stored.edited) written }
{
    let stored = Lengths {
        namespaces,
        ..stored
    };
    Outcome { stored, written }
}

// Records kept now, so many of them rows.
pub(crate) fn with_records(stored: Lengths, count: usize, written: usize) -> Outcome
    ensures { result ≡ outcome_is (lengths_is count stored.namespaces true) written }
{
    let stored = Lengths {
        table: count,
        edited: true,
        ..stored
    };
    Outcome { stored, written }
}
