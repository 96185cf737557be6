// The rows of a table that passes, as an edit reads them before it changes any.
ghost use Rattle.std.specs.Prelude.{◌≡◌, true, ℕ, ◌+◌, ◌<◌, ◌≤◌, length};
ghost use Rattle.listing_rules.specs.Orders.{ascends};
ghost use Rattle.listing_rules.specs.Table.{names};
ghost use Rattle.mailbox_table.specs.Index.{nth_row, rows_at};

// The area of name bytes and the words of the rows: the names ascend by bytes and lie inside the area.
#[derive(Clone, Copy)]
pub(crate) struct Rows<'a> {
    pub(crate) area: &'a [u8],
    pub(crate) words: &'a [u64],
    ghost ascend: { ascends (names (rows_at area.now words.now)) ≡ true },
    ghost inside: { (k : ℕ) → k < length words.now → (nth_row words.now k).start + (nth_row words.now k).len ≤ length area.now },
    ghost few: { length words.now ≤ 512 },
    ghost small: { length area.now ≤ 32768 },
}
