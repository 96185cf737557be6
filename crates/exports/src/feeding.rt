// The feeder as C takes it: its state and its answer as structs of numbers, where the crates below have enums.
//
// Both structs have more than 16 bytes, so that they pass in memory. Any numbers in a state are taken: see `place_of`.
ghost use Rattle.std.specs.Prelude.{◌≡◌};
ghost use Rattle.octets.specs.Put.{Put};
ghost use Rattle.listing_rules.specs.Feeder.{go_on_line};
ghost use Rattle.exports.specs.Feeding.{place_of, machine_of, place_numbers, state_of, event_numbers, chunk_of, FeedsChunk};

use command_shape::{Machine, Place, Tail};
use feeder::{Event, Fed};

// The state between two chunks: the number of its place, and the value beside it, 0 where the place has none (`place_numbers` of
// specs/); whether the last byte is CR, 0 for no and any other number for yes; the number of the command's bytes so far, at the front of
// the lent memory. All zero before the first byte of a command.
#[repr(C)]
#[derive(Clone, Copy)]
pub struct FeederState {
    pub place: u8,
    pub cr: u8,
    pub value: usize,
    pub size: usize,
}

// What comes of a chunk: the event's number (`event_numbers` of specs/); of a refusal its number, else 0; of a whole command its length,
// else 0; how many bytes of the chunk were taken; and the state then.
#[repr(C)]
#[derive(Clone, Copy)]
pub struct FedChunk {
    pub event: u8,
    pub number: u8,
    pub length: usize,
    pub used: usize,
    pub state: FeederState,
}

// A place in numbers.
#[derive(Clone, Copy)]
pub(crate) struct PlaceNumbers {
    place: u8,
    value: usize,
}

// An event in numbers.
#[derive(Clone, Copy)]
pub(crate) struct EventNumbers {
    event: u8,
    number: u8,
    length: usize,
}

// The bytes of a chunk, through the first that something comes of, or all.
pub fn luspemaro_feed(state: FeederState, command: &mut [u8], chunk: &[u8]) -> FedChunk
    ensures { FeedsChunk state command.old command.new chunk.now result }
{
    FedChunk::from(feeder::feed(Machine::from(state), command, chunk))
}

// The continuation line, at a place of the buffer; the place after it.
pub fn luspemaro_put_go_on(out: &mut [u8], at: usize) -> usize
    ensures { Put out.old out.new at go_on_line result }
{
    feeder::put_go_on(out, at)
}

impl From<FeederState> for Machine {
    ghost from_gives = { λ state m. m ≡ machine_of state };

    fn from(state: FeederState) -> Machine {
        Machine {
            place: place_of(state.place, state.value),
            size: state.size,
            cr: state.cr != 0,
        }
    }
}

// The place of a number. A number that no place has stands for dropping, which is left at the next CR LF.
fn place_of(number: u8, value: usize) -> Place
    ensures { result ≡ place_of number value }
{
    match number {
        0 => Place::Line(Tail::Text),
        1 => Place::Line(Tail::Cr),
        2 => Place::Line(Tail::Open),
        3 => Place::Line(Tail::Digits(value)),
        4 => Place::Line(Tail::Closed(value)),
        5 => Place::Line(Tail::Ending(value)),
        6 => Place::Literal(value),
        _ => Place::Dropping,
    }
}

impl From<Fed> for FedChunk {
    ghost from_gives = { λ fed r. r ≡ chunk_of fed };

    fn from(fed: Fed) -> FedChunk {
        let numbers = EventNumbers::from(fed.event);
        FedChunk {
            event: numbers.event,
            number: numbers.number,
            length: numbers.length,
            used: fed.used,
            state: FeederState::from(fed.state),
        }
    }
}

impl From<Machine> for FeederState {
    ghost from_gives = { λ machine s. s ≡ state_of machine };

    fn from(machine: Machine) -> FeederState {
        let numbers = PlaceNumbers::from(machine.place);
        FeederState {
            place: numbers.place,
            cr: u8::from(machine.cr),
            value: numbers.value,
            size: machine.size,
        }
    }
}

impl From<Place> for PlaceNumbers {
    ghost from_gives = { λ place r. r ≡ place_numbers place };

    fn from(place: Place) -> PlaceNumbers {
        match place {
            Place::Line(Tail::Text) => PlaceNumbers { place: 0, value: 0 },
            Place::Line(Tail::Cr) => PlaceNumbers { place: 1, value: 0 },
            Place::Line(Tail::Open) => PlaceNumbers { place: 2, value: 0 },
            Place::Line(Tail::Digits(value)) => PlaceNumbers { place: 3, value },
            Place::Line(Tail::Closed(value)) => PlaceNumbers { place: 4, value },
            Place::Line(Tail::Ending(value)) => PlaceNumbers { place: 5, value },
            Place::Literal(value) => PlaceNumbers { place: 6, value },
            Place::Dropping => PlaceNumbers { place: 7, value: 0 },
        }
    }
}

impl From<Event> for EventNumbers {
    ghost from_gives = { λ event r. r ≡ event_numbers event };

    fn from(event: Event) -> EventNumbers {
        let (event, number, length) = match event {
            Event::Quiet => (0, 0, 0),
            Event::Command(length) => (1, 0, length),
            Event::GoOn => (2, 0, 0),
            Event::Refused(refusal) => (3, refusal.number(), 0),
            Event::TooSmall => (4, 0, 0),
        };
        EventNumbers {
            event,
            number,
            length,
        }
    }
}
