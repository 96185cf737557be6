// The lowest free run of name bytes: a map of the area, one mark a byte, then one pass over the map. `compaction` uses the map too.
ghost use Rattle.std.specs.Prelude.{◌≡◌, true, map, ◌≤◌, ◌<◌, length, replicate};
ghost use Rattle.listing_rules.specs.Subscriptions.{free_from, lowest_run};
ghost use Rattle.records.specs.Words.{record_of};
ghost use Rattle.subscriptions.specs.Runs.{run_is, Unmarks, used_between, used_by};

use super::rows::Rows;
use mailbox_table::rows::Row;
use octets::filled;
use records::MAX_BYTES;

impl Rows<'_> {
    // The lowest run of `len` free bytes of the area.
    pub(crate) fn lowest_run(self, len: usize) -> Option<usize>
        requires { 0 < len }
        ensures { result ≡ run_is (lowest_run len 0 (free_from (map record_of self.entry.words.now) 0 self.entry.area.now)) }
    {
        let mut marks = filled::<bool, MAX_BYTES>(true);
        unmark_names(&mut marks, self.words);
        first_run(&marks[..self.area.len()], len)
    }
}

// The bytes of every row's name are no longer free.
pub fn unmark_names(marks: &mut [bool], words: &[u64])
    ensures { Unmarks (used_by words.now) marks.old marks.new }
{
    for w in words {
        let row = Row::of_word(*w);
        unmark(marks, row.start, row.start + row.len);
    }
}

// The bytes from `start` up to `end`, as far as the map goes, are no longer free.
fn unmark(marks: &mut [bool], start: usize, end: usize)
    ensures { Unmarks (used_between start end) marks.old marks.new }
{
    let stop = end.min(marks.len());
    if start < stop {
        marks[start..stop].fill(false);
    }
}

// The first place of the map with `len` free bytes.
fn first_run(marks: &[bool], len: usize) -> Option<usize>
    requires { 0 < len }
    ensures { result ≡ run_is (lowest_run len 0 marks.now) }
{
    // the bytes from `from` up to i are free, and fewer than `len`
    let mut from = 0;
    for (i, free) in marks.iter().enumerate() {
        if !*free {
            from = i + 1;
        } else if len <= i + 1 - from {
            return Some(from);
        }
    }
    None
}
