// The characters of a frame, gathered from pieces of a log.

ghost use Rattle.std.specs.Prelude.{◌≡◌, ◌+◌, ◌≤◌, length, drop};
ghost use Rattle.replay.specs.Gathering.{before_feed, Gathered};

use crate::Replaying;
use octets::{LF, least, put_all};

// One character more than any frame may have: a frame so long is unreadable, however it goes on.
pub(crate) const MAX_GATHERED: usize = 32771;

// The place of the first line feed from a place on, or the end.
pub(crate) fn line_end(chunk: &[u8], at: usize) -> usize
    requires { at ≤ length chunk.now }
    ensures { result ≡ at + length (before_feed (drop at chunk.now)) }
{
    let rest = &chunk[at..];
    at + rest.iter().position(|c| *c == LF).unwrap_or(rest.len())
}

// Characters of a frame added to those that the line holds, as far as they are kept.
pub(crate) fn gather(state: Replaying, line: &mut [u8], characters: &[u8]) -> Replaying
    requires { state.gathered ≤ 32771 }
    ensures { Gathered characters.now line.old line.new state result }
{
    let so_far = state.gathered;
    let n = least(characters.len(), MAX_GATHERED - so_far);
    put_all(line, so_far, &characters[..n]);
    Replaying {
        frames: state.frames,
        first: state.first,
        due: state.due,
        stopped: state.stopped,
        gathered: so_far + n,
        rows: state.rows,
    }
}
