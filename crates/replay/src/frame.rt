// A frame of a log at its line feed: a command is kept until its answer is read, and then run.

ghost use Rattle.std.specs.Prelude.{◌≡◌, false, ◌+◌, ◌-◌, ◌*◌, ◌≤◌, ◌<◌, ◌^◌, length};
ghost use Rattle.listing_rules.specs.Replay.{noted};
ghost use Rattle.replay.specs.Holding.{first_as, memory};
ghost use Rattle.replay.specs.Running.{table};
ghost use Rattle.replay.specs.Framing.{framed_is, Asks, Settles, EndsFrame};

use crate::Replaying;
use crate::run::run;
use frames::{read_command, read_recorded};

// The state after one frame more.
fn counted(state: Replaying, first: usize, due: usize, stopped: bool, rows: usize) -> Replaying
    requires { state.frames < 2 ^ 64 - 1 }
    ensures { result ≡ framed_is state first due stopped rows }
{
    Replaying {
        frames: state.frames + 1,
        first,
        due,
        stopped,
        gathered: 0,
        rows,
    }
}

// A frame where a command is due: it is kept in `pending`, and any other frame is a stop.
fn ask(state: Replaying, pending: &mut [u8], text: &[u8]) -> Replaying
    requires { state.frames < 2 ^ 64 - 1 }
    ensures { Asks text.now pending.old pending.new state result }
{
    let n = read_command(text, pending).unwrap_or(0);
    let first = state.first;
    let rows = state.rows;
    counted(state, first, n, n == 0, rows)
}

// The first difference so far, 0 for none, after the command of a frame.
fn note(first: usize, frame: usize, same: bool) -> usize
    requires { 1 ≤ frame }
    ensures { first_as result ≡ noted frame same (first_as first) }
{
    if first != 0 {
        return first;
    }
    if same {
        return 0;
    }
    frame
}

// A frame where the answer to a command is due: the command is run once its answer is read, and any other frame is a stop.
fn settle(
    state: Replaying,
    words: &mut [u64],
    sums: &mut [u64],
    area: &mut [u8],
    namespaces: &[u8],
    command: &[u8],
    text: &[u8],
) -> Replaying
    requires frames_bound { state.frames < 2 ^ 64 - 1 }
    requires le_frames { 1 ≤ state.frames }
    requires in_bounds { 1 ≤ length command.now }
    ensures { Settles namespaces.now command.now text.now
        (table words.old sums.old area.old)
        (table words.new sums.new area.new) state result }
{
    let so_far = state.first;
    let frame = state.frames;
    let rows = state.rows;
    let Some(recorded) = read_recorded(text) else {
        return counted(state, so_far, 0, true, rows);
    };
    let ran = run(
        words,
        sums,
        rows,
        area,
        namespaces,
        command,
        recorded,
        &text[2..],
    );
    let first = note(so_far, frame, ran.same);
    let left = ran.rows;
    counted(state, first, 0, false, left)
}

// The frame of the characters gathered, when its line feed has come.
pub(crate) fn end_frame(
    state: Replaying,
    words: &mut [u64],
    sums: &mut [u64],
    area: &mut [u8],
    namespaces: &[u8],
    pending: &mut [u8],
    line: &[u8],
) -> Replaying
    requires stopped_value { state.stopped ≡ false }
    requires frames_bound { state.frames < 2 ^ 64 - 1 }
    requires due_bound { state.due ≤ 2050 * state.frames }
    requires due_bound_2 { state.due ≤ 2050 }
    requires in_bounds { 2050 ≤ length pending.old }
    requires gathered_in_bounds { state.gathered ≤ length line.now }
    ensures { EndsFrame namespaces.now
        (memory words.old sums.old area.old pending.old line.now)
        (memory words.new sums.new area.new pending.new line.now) state result }
{
    let n = state.gathered;
    let due = state.due;
    let text = &line[..n];
    if due == 0 {
        return ask(state, pending, text);
    }
    settle(state, words, sums, area, namespaces, &pending[..due], text)
}
