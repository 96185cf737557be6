// The part that is fed bytes from a slow line, in chunks of any length, and hands over whole commands.
//
// The command's bytes so far lie at the front of lent memory; all else is in a `Machine`, which is passed in and given back. No
// public function asks anything of its caller.
#![tactic(auto)]

ghost use Rattle.std.specs.Prelude.{◌≡◌};
ghost use Rattle.octets.specs.Put.{Put};
ghost use Rattle.listing_rules.specs.Feeder.{go_on_line};
ghost use Rattle.feeder.specs.Feed.{stored_is, event_is, FedByte, Feeds};

use command_shape::{MAX_COMMAND, Machine, Signal};
use octets::Refusal;

// What comes of bytes: nothing yet; a whole command, so many bytes at the front of the lent memory; that the continuation line is
// due; a refusal. Or that the lent memory is too small.
#[derive(Clone, Copy)]
pub enum Event {
    Quiet,
    Command(usize),
    GoOn,
    Refused(Refusal),
    TooSmall,
}

// The state then, how many bytes of the chunk were taken, and what came of them.
#[derive(Clone, Copy)]
pub struct Fed {
    pub state: Machine,
    pub used: usize,
    pub event: Event,
}

// The bytes of a chunk, through the first that something comes of, or all. The caller goes on with the rest, and with the state
// that is given back. The lent memory has 2,048 bytes or more and holds at its front the command's bytes so far, `state.size` of
// them; where it has fewer, or the state does not fit, nothing is taken and no byte changes.
pub fn feed(state: Machine, command: &mut [u8], chunk: &[u8]) -> Fed
    ensures { Feeds state command.old command.new chunk.now result }
{
    if command.len() < MAX_COMMAND || MAX_COMMAND < state.size {
        return Fed {
            state,
            used: 0,
            event: Event::TooSmall,
        };
    }
    let mut current = state;
    for (i, b) in chunk.iter().enumerate() {
        let fed = feed_byte(current, command, *b);
        current = fed.state;
        let event = fed.event;
        let Event::Quiet = event else {
            return Fed {
                state: current,
                used: i + 1,
                event,
            };
        };
    }
    Fed {
        state: current,
        used: chunk.len(),
        event: Event::Quiet,
    }
}

// One byte.
fn feed_byte(state: Machine, command: &mut [u8], b: u8) -> Fed
    ensures { FedByte state command.old command.new b result }
{
    let at = state.size;
    store(state, command, b);
    let stepped = state.step(b);
    let next = stepped.machine;
    let signal = stepped.signal;
    Fed {
        state: next,
        used: 1,
        event: event_of(signal, octets::advance(at, 1)),
    }
}

// The byte at its place, where the command takes it.
#[tactic(auto, unfolding(crate::specs::Feed::stored_is))]
fn store(state: Machine, command: &mut [u8], b: u8)
    ensures { command.new ≡ stored_is state command.old b }
{
    let at = state.size;
    if state.takes(b) {
        octets::put(command, at, b);
    }
}

// What comes of a byte, the command's byte of number `size`: "a larger n, a byte 00 anywhere, or a command over 2,048 bytes in all is
// refused with 3".
#[tactic(auto, unfolding(crate::specs::Feed::event_is))]
fn event_of(signal: Signal, size: usize) -> Event
    ensures { result ≡ event_is signal size }
{
    match signal {
        Signal::Quiet => Event::Quiet,
        Signal::GoOn => Event::GoOn,
        Signal::Whole => Event::Command(size),
        Signal::Refused => Event::Refused(Refusal::LineShape),
    }
}

// "the continuation line `+ go` CR LF".
#[tactic(auto, unfolding(listing_rules::proofs::Keys::open_bytes, listing_rules::specs::Feeder::go_on_line))]
pub fn put_go_on(buf: &mut [u8], at: usize) -> usize
    ensures { Put buf.old buf.new at go_on_line result }
{
    octets::put_all(buf, at, b"+ go\r\n")
}
