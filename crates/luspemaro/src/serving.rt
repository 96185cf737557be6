// The bytes of a read answered: fed, and the answers written; and the end of the input.

ghost use Rattle.std.specs.Prelude.{◌≤◌, ◌≡◌, true, false, length};
ghost use Rattle.kept_table.specs.Kept.{lent};
ghost use Rattle.session.specs.Feeding.{start_is, ready_in};
ghost use Rattle.luspemaro.specs.Serving.{place_made, Rounds, Serves, Ends, ReadsOn};

use crate::calls::{Got, Unsent, read_some, send, tell};
use crate::feeding::feed_all;
use session::{State, finish};

// Where the program stands: the session's state, how many frames have ended, whether there is more to read, and whether a call
// failed.
#[derive(Clone, Copy)]
pub(crate) struct Place {
    pub state: State,
    pub frames: usize,
    pub more: bool,
    pub failed: bool,
}

impl Place {
    // Before the first read.
    pub fn start() -> Place
        ensures { result ≡ place_made start_is 0 true false }
    {
        place_at(State::start(), 0, true, false)
    }
}

// What came of some bytes of a read: the state after them, how many were fed, how many frames ended in them, and what was sent.
#[derive(Clone, Copy)]
struct Round {
    state: State,
    used: usize,
    frames: usize,
    sent: Result<usize, Unsent>,
}

// As many bytes as one output has room for, fed and answered.
fn answer_some(
    rt: &HostRuntime,
    state: State,
    bytes: &[u8],
    table: &mut [u8],
    records: &mut [u64],
    namespaces: &mut [u8],
    line: &mut [u8],
    out: &mut [u8],
) -> Round
    requires { ready_in (lent table.old records.old namespaces.old out.old) line.old state ≡ true }
    ensures { Rounds bytes.now
        (lent table.old records.old namespaces.old out.old)
        (lent table.new records.new namespaces.new out.new)
        line.old line.new state result }
{
    let turn = feed_all(state, bytes, table, records, namespaces, line, out);
    let sent = send(rt, out, turn.written);
    let state = turn.state;
    Round {
        state,
        used: turn.used,
        frames: turn.frames,
        sent,
    }
}

// The bytes of a read, answered in as many writes as it takes.
fn serve(
    rt: &HostRuntime,
    place: Place,
    bytes: &[u8],
    table: &mut [u8],
    records: &mut [u64],
    namespaces: &mut [u8],
    line: &mut [u8],
    out: &mut [u8],
) -> Place
    requires { ready_in (lent table.old records.old namespaces.old out.old) line.old place.state ≡ true }
    ensures { Serves bytes.now
        (lent table.old records.old namespaces.old out.old)
        (lent table.new records.new namespaces.new out.new)
        line.old line.new place result }
{
    let mut state = place.state;
    let mut frames = place.frames;
    let mut at = 0;

    // A `while`: each turn takes as many bytes as the output had room for.
    while at < bytes.len() {
        let left = &bytes[at..];
        let round = answer_some(rt, state, left, table, records, namespaces, line, out);
        state = round.state;
        if let Err(lost) = round.sent {
            return write_failed(rt, state, frames, lost);
        }
        at += round.used;
        frames = octets::advance(frames, round.frames);
    }
    place_at(state, frames, true, false)
}

// The end of the input: what document 01 has it say goes out.
fn answer_end(rt: &HostRuntime, state: State, out: &mut [u8]) -> Result<usize, Unsent>
    requires { 32771 ≤ length out.old }
    ensures { Ends out.new state result }
{
    let written = finish(state, out);
    send(rt, out, written)
}

fn place_at(state: State, frames: usize, more: bool, failed: bool) -> Place
    ensures { result ≡ place_made state frames more failed }
{
    Place {
        state,
        frames,
        more,
        failed,
    }
}

// Not all was sent: the frame after those that have ended is told.
fn write_failed(rt: &HostRuntime, state: State, frames: usize, unsent: Unsent) -> Place
    ensures { result ≡ place_made state frames false true }
{
    tell(
        rt,
        b"luspemaro: write failed at frame ",
        octets::advance(frames, 1),
        unsent.error,
    );
    place_at(state, frames, false, true)
}

fn read_failed(rt: &HostRuntime, state: State, frames: usize, error: i32) -> Place
    ensures { result ≡ place_made state frames false true }
{
    tell(
        rt,
        b"luspemaro: read failed at frame ",
        octets::advance(frames, 1),
        error,
    );
    place_at(state, frames, false, true)
}

// One read: its bytes are answered, or the end of the input is, or that it failed is told.
pub(crate) fn read_on(
    rt: &HostRuntime,
    place: Place,
    table: &mut [u8],
    records: &mut [u64],
    namespaces: &mut [u8],
    line: &mut [u8],
    out: &mut [u8],
) -> Place
    requires { ready_in (lent table.old records.old namespaces.old out.old) line.old place.state ≡ true }
    ensures { ReadsOn
        (lent table.old records.old namespaces.old out.old)
        (lent table.new records.new namespaces.new out.new)
        line.old line.new place result }
{
    let state = place.state;
    let frames = place.frames;
    let mut chunk = io::large_buffer();
    match read_some(rt, &mut chunk) {
        Got::Bytes(n) => serve(
            rt,
            place,
            &chunk[..n],
            table,
            records,
            namespaces,
            line,
            out,
        ),
        Got::End => {
            if let Err(unsent) = answer_end(rt, state, out) {
                return write_failed(rt, state, frames, unsent);
            }
            place_at(state, frames, false, false)
        },
        Got::Failed(error) => read_failed(rt, state, frames, error),
    }
}
