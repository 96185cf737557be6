// Whether a name lies below a row with no inferiors.
ghost use Rattle.std.specs.Prelude.{◌≡◌};
ghost use Rattle.listing_rules.specs.Names.{below};
ghost use Rattle.listing_rules.specs.Subscriptions.{below_no_inferiors};
ghost use Rattle.mailbox_table.specs.Index.{row_at_word, rows_at};
ghost use Rattle.subscriptions.specs.Plans.{bars_below};

use super::rows::Rows;
use mailbox_table::flags::Flags;
use mailbox_table::rows::{Row, name_of};
use octets::{Members, SLASH, same_bytes};

impl Rows<'_> {
    // Whether the name lies below some row with no inferiors.
    pub(crate) fn below_no_inferiors(self, name: &[u8]) -> bool
        ensures { result ≡ below_no_inferiors (rows_at self.entry.area.now self.entry.words.now) name.now }
    {
        self.words.iter().any(|w| bars(self.area, *w, name))
    }
}

// Whether the row of this word has no inferiors and the name lies below it. The names of other rows are not looked at.
fn bars(area: &[u8], word: u64, name: &[u8]) -> bool
    ensures { result ≡ bars_below name.now (row_at_word area.now word) }
{
    let row = Row::of_word(word);
    row.flags.has(Flags::NO_INFERIORS) && is_below(name_of(area, row), name)
}

// Whether n lies below a: it begins with a and goes on with a slash.
pub(crate) fn is_below(a: &[u8], n: &[u8]) -> bool
    ensures { result ≡ below a.now n.now }
{
    let len = a.len();
    if n.len() <= len {
        return false;
    }
    if n[len] != SLASH {
        return false;
    }
    same_bytes(a, &n[..len])
}
