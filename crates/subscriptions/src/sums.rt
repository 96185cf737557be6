// A plan done on the summary (document 02, W13): the rows that the name lies below, and the numbers that move with the records. Done before the
// words and the area change, over the rows as they were.
ghost use Rattle.std.specs.Prelude.{Ok, ◌≡◌};
ghost use Rattle.subscriptions.specs.Summed.{FlagSums, InsertSums, RemoveSums, SumsFit, flagged_sums, inserted_sums, removed_sums, numbers_after};

use super::Plan;
use super::rows::Rows;
use super::shift::{put_word, remove_word};
use mailbox_table::flags::Flags;
use mailbox_table::rows::Row;

// The plan done on the numbers of the rows; those of spare records stay, and that of a freed one is zero.
pub(crate) fn carry_sums(plan: Plan, sums: &mut [u64], rows: Rows, name: &[u8])
    requires { SumsFit (Ok plan) sums.old rows.words.now rows.area.now name.now }
    ensures { sums.new ≡ numbers_after (Ok plan) sums.old rows.entry.words.now rows.entry.area.now name.now }
{
    match plan {
        Plan::Keep => {},
        Plan::Flag(k, flags) => flag_sums(sums, rows, name, k, flags),
        Plan::Insert(k, _) => insert_sums(sums, rows, name, k),
        Plan::Remove(k) => remove_sums(sums, rows, name, k),
    }
}

// Row k has these flags.
fn flag_sums(sums: &mut [u64], rows: Rows, name: &[u8], k: usize, flags: u16)
    requires { FlagSums sums.old rows.words.now rows.area.now name.now k flags }
    ensures { sums.new ≡ flagged_sums sums.old rows.entry.words.now rows.entry.area.now name.now k flags }
{
    let row = Row::of_word(rows.words[k]);
    rows.resum_above(name, row.flags, Flags { bits: flags }, sums);
}

// A row 0002 stands at place k.
fn insert_sums(sums: &mut [u64], rows: Rows, name: &[u8], k: usize)
    requires { InsertSums sums.old rows.words.now rows.area.now name.now k }
    ensures { sums.new ≡ inserted_sums sums.old rows.entry.words.now rows.entry.area.now name.now k }
{
    rows.resum_above(name, Flags::NONE, Flags::SUBSCRIBED, sums);
    put_word(sums, rows.words.len(), k, rows.sum_below(name));
}

// Row k is gone.
fn remove_sums(sums: &mut [u64], rows: Rows, name: &[u8], k: usize)
    requires { RemoveSums sums.old rows.words.now rows.area.now name.now k }
    ensures { sums.new ≡ removed_sums sums.old rows.entry.words.now rows.entry.area.now name.now k }
{
    rows.resum_above(name, Flags::SUBSCRIBED, Flags::NONE, sums);
    remove_word(sums, rows.words.len(), k);
}
