// A row of the index, as a record and as one number.
ghost use Rattle.std.specs.Prelude.{◌≡◌, ◌<◌, take, drop};
ghost use Rattle.mailbox_table.specs.Words.{word_of, row_of_word, Packs};

use super::flags::Flags;

// The flags, where the name lies in the area of name bytes, and how many bytes it shares with the name of the row before.
#[derive(Clone, Copy)]
pub struct Row {
    pub flags: Flags,
    pub start: usize,
    pub len: usize,
    pub shared: usize,
}

impl Row {
    // The row as one number. Only `packed` and `link` make words, of rows whose places they have tested.
    pub(crate) fn word(self) -> u64
        requires { Packs self }
        ensures { result ≡ word_of self }
    {
        let flags = self.flags;
        (flags.bits as u64)
            + 65536 * (self.start as u64)
            + 4294967296 * (self.len as u64)
            + 1099511627776 * (self.shared as u64)
    }

    // The row of a number. It is no `From`, since the record's readers, which the number tells too, are not the row's.
    pub fn of_word(w: u64) -> Row
        ensures { result ≡ row_of_word w }
    {
        Row {
            flags: Flags {
                bits: (w % 65536) as u16,
            },
            start: (w / 65536 % 65536) as usize,
            len: (w / 4294967296 % 256) as usize,
            shared: (w / 1099511627776 % 256) as usize,
        }
    }
}

// The name of a row: the part of the area that it tells of, as far as the area goes.
pub fn name_of(area: &[u8], row: Row) -> &[u8]
    ensures { result.now ≡ take row.len (drop row.start area.now) }
{
    let behind = &area[row.start.min(area.len())..];
    &behind[..row.len.min(behind.len())]
}
