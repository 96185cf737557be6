// A table as a reader from 0 to 7 sees it.
ghost use Rattle.std.specs.Prelude.{◌≡◌, true};
ghost use Rattle.listing_rules.specs.Readers.{is_reader};
ghost use Rattle.listing_rules.specs.Table.{passes};
ghost use Rattle.collector.specs.Held.{held_seen};

// A word for each record that is a row, over the area of names, and who reads them. What the reader sees of them passes.
#[derive(Clone, Copy)]
pub(crate) struct Seen<'a> {
    pub words: &'a [u64],
    pub area: &'a [u8],
    pub reader: u8,
    ghost known: { is_reader reader ≡ true },
    ghost table_passes: { passes (held_seen reader area.now words.now) ≡ true },
}
