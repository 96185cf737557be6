// Names moved together (document 02, W7): the room that removal leaves becomes one run of zeros at the end of the area.
//
// One pass over the area moves the bytes that rows use to its front, in place, and notes for each place how many of them lie before it:
// that is where a name that begins there comes to lie. So the time is in proportion to area and records, and no row is looked for. Who
// lends the records themselves calls `exports::luspemaro_compact`.
#![tactic(auto)]

mod gather;
mod starts;

ghost use Rattle.std.specs.Prelude.{◌≡◌, map, ◌≤◌, length, take};
ghost use Rattle.octets.specs.Refusals.{numbered};
ghost use Rattle.records.specs.Words.{record_of};
ghost use Rattle.records.specs.Lent.{lent_of};
ghost use Rattle.records.specs.Stores.{word_compaction};
ghost use Rattle.compaction.specs.Moves.{Within, MovesNames};
ghost use Rattle.compaction.specs.Result.{compacted_is, cells_compacted};

use gather::move_bytes;
use octets::{Refusal, filled};
use records::MAX_BYTES;
use starts::restart;
use subscriptions::Change;
use summary::check_summed;

// The bytes of an area that counts as short.
const SHORT_BYTES: usize = 4096;

// "moves names together, in the order of their starts", and tells which words changed; a table that does not pass is refused. Of the first `lent` words,
// as many are the records, each as a number (`word_of` of records/specs), as there are words and numbers of the summary; the first `count` of those are the
// table's rows, over the area of name bytes. A row's word changes in its start alone, a spare one not at all. The summary is looked at by check 1 and
// stays.
pub fn compact_words(
    words: &mut [u64],
    lent: usize,
    count: usize,
    area: &mut [u8],
    sums: &[u64],
) -> Result<Change, Refusal>
    ensures result { numbered result ≡ compacted_is (word_compaction words.old lent count area.old sums.now).number count }
    ensures area { area.new ≡ (word_compaction words.old lent count area.old sums.now).area }
    ensures words { words.new ≡ cells_compacted words.old lent count area.old sums.now }
    ensures records { map record_of (take (lent_of words.old lent sums.now) words.new)
        ≡ (word_compaction words.old lent count area.old sums.now).records }
{
    let n = lent.min(words.len().min(sums.len()));
    if !check_summed(&words[..n], count, area, &sums[..n]) {
        return Err(Refusal::Table);
    }
    move_names(&mut words[..count], area);
    Ok(Change {
        from: 0,
        to: count,
        count,
    })
}

// The names of these words, moved together, and zeros after them. A short area takes the smaller room for places, which takes less time to clear.
fn move_names(words: &mut [u64], area: &mut [u8])
    requires { Within words.old area.old }
    ensures { MovesNames words.old area.old words.new area.new }
{
    if area.len() <= SHORT_BYTES {
        move_by::<SHORT_BYTES>(words, area);
    } else {
        move_by::<MAX_BYTES>(words, area);
    }
}

// The same, with room for the place of each of N bytes.
fn move_by<const N: usize>(words: &mut [u64], area: &mut [u8])
    requires { Within words.old area.old × (length area.old ≤ N) × (N ≤ 32768) }
    ensures { MovesNames words.old area.old words.new area.new }
{
    let mut places = filled::<u16, N>(0);
    let n = area.len();
    move_bytes(words, area, &mut places);
    restart(words, &places[..n]);
}
