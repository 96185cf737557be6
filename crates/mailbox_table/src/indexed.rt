// An index as one value, which carries what is known of it.
ghost use Rattle.std.specs.Prelude.{◌≤◌, length};
ghost use Rattle.mailbox_table.specs.Index.{Indexed};

// The words of an index over the area where their names lie, of no more rows than a table has.
#[derive(Clone, Copy)]
pub struct IndexedRows<'a> {
    pub area: &'a [u8],
    pub words: &'a [u64],
    pub ghost indexed: { Indexed area.now words.now },
    pub ghost few: { length words.now ≤ 512 },
}
