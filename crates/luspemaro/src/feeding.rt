// The bytes of a read fed to the session, their answers gathered.

ghost use Rattle.std.specs.Prelude.{◌≤◌, ◌≡◌, true};
ghost use Rattle.kept_table.specs.Kept.{lent};
ghost use Rattle.session.specs.Feeding.{ready_in};
ghost use Rattle.luspemaro.specs.Serving.{turn_is, ends_frame, Turns};

use octets::LF;
use session::{MAX_LINE, State, feed};

// The state after the bytes that were taken, how many they were, how many frames ended in them, and how many bytes of output lie at
// the front of `out`.
#[derive(Clone, Copy)]
pub(crate) struct Turn {
    pub state: State,
    pub used: usize,
    pub frames: usize,
    pub written: usize,
}

// Feeds frame after frame as long as bytes are left and `out` has room for the longest line; the answers lie in `out` one after the
// other. A ready memory is never refused: that arm is dead, and its answer is proved from the contradiction.
pub(crate) fn feed_all(
    state: State,
    bytes: &[u8],
    table: &mut [u8],
    records: &mut [u64],
    namespaces: &mut [u8],
    line: &mut [u8],
    out: &mut [u8],
) -> Turn
    requires { ready_in (lent table.old records.old namespaces.old out.old) line.old state ≡ true }
    ensures { Turns bytes.now
        (lent table.old records.old namespaces.old out.old)
        (lent table.new records.new namespaces.new out.new)
        line.old line.new state result }
{
    let mut state = state;
    let mut used = 0;
    let mut frames = 0;
    let mut written = 0;

    // A `while`: each turn takes as many bytes as `feed` did, to its first line feed.
    while used < bytes.len() {
        if out.len() - written < MAX_LINE {
            return turn_of(state, used, frames, written);
        }
        let left = &bytes[used..];
        let rest = &mut out[written..];
        let Some(taken) = feed(state, left, table, records, namespaces, line, rest) else {
            return turn_of(state, used, frames, written);
        };
        state = taken.state;
        used += taken.used;
        written += taken.written;
        frames += ends_frame(bytes[used - 1]);
    }
    turn_of(state, used, frames, written)
}

fn turn_of(state: State, used: usize, frames: usize, written: usize) -> Turn
    ensures { result ≡ turn_is state used frames written }
{
    Turn {
        state,
        used,
        frames,
        written,
    }
}

// "one frame a line ending in LF": 1 for a line feed, 0 for any other byte.
fn ends_frame(b: u8) -> usize
    ensures { (result ≡ ends_frame b) × (result ≤ 1) }
{
    if b == LF { 1 } else { 0 }
}
