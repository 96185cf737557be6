// The numbers of a summary (document 02, W13) once the row of one name is another: those of the rows that the name lies below change, and those of a row
// that is put in are counted. All over the words of the rows as they were.
ghost use Rattle.std.specs.Prelude.{◌≡◌, cond, ◌+◌, ◌-◌, ◌≤◌, length};
ghost use Rattle.summary.specs.Counts.{one_word, sum_below};
ghost use Rattle.subscriptions.specs.Resums.{Switches, Resums, resummed_words};

use super::inferiors::is_below;
use super::rows::Rows;
use mailbox_table::flags::Flags;
use mailbox_table::rows::{Row, name_of};
use summary::{if_so, one_of};

impl Rows<'_> {
    // What the rows that lie below a name add up to: the summary of a name that is put in, which has no row in an index yet.
    pub(crate) fn sum_below(self, name: &[u8]) -> u64
        ensures { result ≡ sum_below self.entry.area.now name.now self.entry.words.now }
    {
        let mut sum = 0;
        for w in self.words {
            let row = Row::of_word(*w);
            sum += if_so(is_below(name, name_of(self.area, row)), one_of(row.flags));
        }
        sum
    }

    // The numbers of the rows that the name lies below, once its flags are `new` and no longer `old`; flags 0 stand for no row. The others stay.
    pub(crate) fn resum_above(self, name: &[u8], old: Flags, new: Flags, sums: &mut [u64])
        requires { Resums self.area.now self.words.now name.now (one_word old.bits) (one_word new.bits) sums.old }
        ensures { sums.new
            ≡ resummed_words (one_word old.bits) (one_word new.bits) name.now self.entry.area.now self.entry.words.now sums.old }
    {
        let gone = one_of(old);
        let come = one_of(new);
        for (i, w) in self.words.iter().enumerate() {
            let row = Row::of_word(*w);
            let counts = is_below(name_of(self.area, row), name);
            sums[i] = switched(counts, sums[i], gone, come);
        }
    }
}

// A number, once a row that it counts, if it does, adds `come` and no longer `gone`.
fn switched(counts: bool, sum: u64, gone: u64, come: u64) -> u64
    requires { Switches counts sum gone come }
    ensures { result ≡ cond counts (sum - gone + come) sum }
{
    if counts {
        return sum - gone + come;
    }
    sum
}
