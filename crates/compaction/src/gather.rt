// The bytes that rows use, gathered at the front of the area.
ghost use Rattle.std.specs.Prelude.{◌≡◌, map, ◌≤◌, length};
ghost use Rattle.records.specs.Words.{record_of};
ghost use Rattle.compaction.specs.Gathered.{Gathers};
ghost use Rattle.compaction.specs.Moves.{MovesBytes};

use octets::{clear, filled};
use records::MAX_BYTES;
use subscriptions::free::unmark_names;

// The bytes of the words' names at the front of the area, in their order, zeros after them, and for each place of the area how many of
// those bytes lay before it.
pub(crate) fn move_bytes(words: &[u64], area: &mut [u8], places: &mut [u16])
    requires { (length area.old ≤ 32768) × (length area.old ≤ length places.old) }
    ensures { MovesBytes (map record_of words.now) area.old area.new places.new }
{
    let mut marks = filled::<bool, MAX_BYTES>(true);
    unmark_names(&mut marks, words);
    let n = area.len();
    let end = gather(area, &marks[..n], places);
    clear(&mut area[end..]);
}

// The bytes that are not marked as free, moved to the front, and how many they are.
fn gather(area: &mut [u8], marks: &[bool], places: &mut [u16]) -> usize
    requires { (length area.old ≤ 32768) × (length marks.now ≡ length area.old) × (length area.old ≤ length places.old) }
    ensures { Gathers marks.now area.old area.new places.new result }
{
    let mut end = 0;
    for (i, free) in marks.iter().enumerate() {
        places[i] = end as u16;
        if !*free {
            area[end] = area[i];
            end += 1;
        }
    }
    end
}
