// The place of a name among the rows, whose names ascend by bytes.
ghost use Rattle.std.specs.Prelude.{◌≡◌};
ghost use Rattle.listing_rules.specs.Orders.{byte_order, is_lt};
ghost use Rattle.listing_rules.specs.Subscriptions.{rows_before};
ghost use Rattle.mailbox_table.specs.Index.{name_at, rows_at};
ghost use Rattle.subscriptions.specs.Plans.{stands_at};

use super::rows::Rows;
use mailbox_table::rows::{Row, name_of};
use octets::same_bytes;

impl Rows<'_> {
    // How many rows come before the name: the place of its row, or of the first row after it.
    pub(crate) fn place_of(self, name: &[u8]) -> usize
        ensures { result ≡ rows_before (rows_at self.entry.area.now self.entry.words.now) name.now }
    {
        self.words
            .partition_point(|w| comes_before(self.area, *w, name))
    }

    // Whether there is a row k, and the name is its name.
    pub(crate) fn stands_at(self, k: usize, name: &[u8]) -> bool
        ensures { result ≡ stands_at self.entry.area.now self.entry.words.now k name.now }
    {
        k < self.words.len() && same_bytes(name_of(self.area, Row::of_word(self.words[k])), name)
    }
}

// Whether the name of the row of this word comes before another by bytes, a prefix first.
fn comes_before(area: &[u8], word: u64, name: &[u8]) -> bool
    ensures { result ≡ is_lt (byte_order (name_at area.now word) name.now) }
{
    name_of(area, Row::of_word(word)) < name
}
