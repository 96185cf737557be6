// SUBSCRIBE and UNSUBSCRIBE over lent words (document 02, W6): checked, decided, and only then applied.
//
// `edit` is the one entry. `decide` touches nothing: it returns what is to be done as a plan, by value, so that every refusal is known before a
// record or a byte changes. It is then done on the summary, on the words and on the area of name bytes, and `edit` returns which words changed or
// moved: only those are to be copied back. A word that is put in does not say what its name shares with the name before: an index is made anew.
#![tactic(auto)]

mod apply;
pub mod free;
mod inferiors;
mod order;
mod resum;
mod rows;
mod shift;
mod sums;

ghost use Rattle.std.specs.Prelude.{Ok, ◌≡◌, map, ◌≤◌, length, take};
ghost use Rattle.octets.specs.Refusals.{numbered};
ghost use Rattle.records.specs.Words.{record_of};
ghost use Rattle.subscriptions.specs.Plans.{plan_for, setting_plan, clearing_plan, fresh_plan};
ghost use Rattle.subscriptions.specs.Applied.{Fits, words_after, area_after, change_of};
ghost use Rattle.subscriptions.specs.Summed.{SumsFit, numbers_after};
ghost use Rattle.subscriptions.specs.Editing.{cells, plan_over, edited_is, cells_after, Edits};

use apply::{flag_row, insert_row, remove_row, unchanged};
use mailbox_table::flags::Flags;
use mailbox_table::rows::Row;
use names::lawful_name;
use octets::{Members, Refusal};
use records::MAX_ROWS;
use rows::Rows;
use summary::check_summed;
use sums::carry_sums;

// What an edit is to do: nothing; row k gets these flags; a row 0002 is put in at place k, its name at an offset; or row k goes.
#[derive(Clone, Copy)]
pub enum Plan {
    Keep,
    Flag(usize, u16),
    Insert(usize, usize),
    Remove(usize),
}

// The words that changed or moved, `from` up to `to`, and how many words are rows now.
#[derive(Clone, Copy)]
pub struct Change {
    pub from: usize,
    pub to: usize,
    pub count: usize,
}

// SUBSCRIBE, or UNSUBSCRIBE, of a name that is spelled, over the words of records and the numbers of their summary: as many records are lent as there
// are of both, and the first `count` of them are rows, over the area of name bytes. It is refused with 1 where the table does not pass, then with 14 or
// 15, and with 9 where the answer does not fit its buffer; a refusal changes nothing.
pub fn edit(
    words: &mut [u64],
    sums: &mut [u64],
    count: usize,
    area: &mut [u8],
    subscribe: bool,
    name: &[u8],
    fits: bool,
) -> Result<Change, Refusal>
    ensures { Edits (cells words.old sums.old area.old) (cells words.new sums.new area.new)
        count subscribe name.now fits result }
{
    let n = words.len().min(sums.len());
    edit_front(
        &mut words[..n],
        &mut sums[..n],
        count,
        area,
        subscribe,
        name,
        fits,
    )
}

// The edit where every word is lent and has a number.
fn edit_front(
    words: &mut [u64],
    sums: &mut [u64],
    count: usize,
    area: &mut [u8],
    subscribe: bool,
    name: &[u8],
    fits: bool,
) -> Result<Change, Refusal>
    requires { length words.old ≡ length sums.old }
    ensures { (numbered result ≡ edited_is (plan_over (cells words.old sums.old area.old) count subscribe name.now fits) count)
        × (cells words.new sums.new area.new ≡ cells_after
        (plan_over (cells words.old sums.old area.old) count subscribe name.now fits)
        (cells words.old sums.old area.old) count name.now) }
{
    if !check_summed(words, count, area, sums) {
        return Err(Refusal::Table);
    }
    let lent = words.len();
    let rows = Rows {
        area,
        words: &words[..count],
    };
    let plan = rows.decide(lent, subscribe, name)?;
    if !fits {
        return Err(Refusal::ShortBuffer);
    }
    // the numbers first, over the rows as they were
    carry_sums(plan, sums, rows, name);
    Ok(apply_plan(plan, words, count, area, name))
}

impl Rows<'_> {
    // The plan for an edit of this name, spelled; `lent` records hold the rows and the spare ones.
    fn decide(self, lent: usize, subscribe: bool, name: &[u8]) -> Result<Plan, Refusal>
        ensures { numbered result ≡ plan_for (map record_of self.entry.words.now) lent self.entry.area.now subscribe name.now }
    {
        let k = self.place_of(name);
        if !self.stands_at(k, name) {
            if subscribe {
                return self.insertion(lent, k, name);
            }
            return Ok(Plan::Keep);
        }
        let row = Row::of_word(self.words[k]);
        if subscribe {
            return Ok(setting(k, row.flags));
        }
        Ok(clearing(k, row.flags))
    }

    // A row put in at place k for a name that has none.
    fn insertion(self, lent: usize, k: usize, name: &[u8]) -> Result<Plan, Refusal>
        ensures { numbered result ≡ fresh_plan (map record_of self.entry.words.now) lent self.entry.area.now k name.now }
    {
        if !lawful_name(name) {
            return Err(Refusal::UnlawfulName);
        }
        if self.below_no_inferiors(name) {
            return Err(Refusal::UnlawfulName);
        }
        if MAX_ROWS <= self.words.len() {
            return Err(Refusal::NoRoom);
        }
        if lent <= self.words.len() {
            return Err(Refusal::NoRoom);
        }
        let start = self.lowest_run(name.len()).ok_or(Refusal::NoRoom)?;
        Ok(Plan::Insert(k, start))
    }
}

// The flag set.
fn setting(k: usize, flags: Flags) -> Plan
    ensures { result ≡ setting_plan k flags.bits }
{
    if flags.has(Flags::SUBSCRIBED) {
        return Plan::Keep;
    }
    Plan::Flag(k, flags.bits + Flags::SUBSCRIBED.bits)
}

// The flag cleared, with the row where it was all that the row had.
fn clearing(k: usize, flags: Flags) -> Plan
    ensures { result ≡ clearing_plan k flags.bits }
{
    if flags.bits == Flags::SUBSCRIBED.bits {
        return Plan::Remove(k);
    }
    if flags.has(Flags::SUBSCRIBED) {
        return Plan::Flag(k, flags.bits - Flags::SUBSCRIBED.bits);
    }
    Plan::Keep
}

// The plan done on words and area: the first `count` words are rows, the words after them are spare.
fn apply_plan(plan: Plan, words: &mut [u64], count: usize, area: &mut [u8], name: &[u8]) -> Change
    requires { Fits (Ok plan) words.old count area.old name.now }
    ensures { (result ≡ change_of (Ok plan) count)
        × (words.new ≡ words_after (Ok plan) words.old count name.now)
        × (area.new ≡ area_after (Ok plan) words.old area.old name.now) }
{
    match plan {
        Plan::Keep => unchanged(count),
        Plan::Flag(k, flags) => flag_row(words, count, k, flags),
        Plan::Insert(k, start) => insert_row(words, count, area, k, start, name),
        Plan::Remove(k) => remove_row(words, count, area, k),
    }
}
