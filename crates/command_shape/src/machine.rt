// What is kept between two bytes of a stream of commands, apart from the bytes themselves, and what comes of one byte more.
//
// Whatever the fields hold, a step is decided.

ghost use Rattle.std.specs.Prelude.{◌≡◌};
ghost use Rattle.command_shape.specs.Machine.{at_cr, tail_is, plain_is, is_dropping, offending, standing, steps, text_is, line_is};
ghost use Rattle.command_shape.specs.Machine.{literal_is, announced_is, dropped_is, refused_is, takes, step_is};

use crate::{MAX_LITERAL, is_digit, with_digit};
use octets::{CR, LF};

// "a command over 2,048 bytes in all is refused".
pub const MAX_COMMAND: usize = 2048;

// How a line outside literals ends so far: with no byte that matters; with a CR; with "{"; with digits after it; with the "}" after
// those; with the CR after that. Digits are kept by their value, at most 1,025.
#[derive(Clone, Copy)]
pub enum Tail {
    Text,
    Cr,
    Open,
    Digits(usize),
    Closed(usize),
    Ending(usize),
}

// Where the next byte stands: in a line outside literals; in a literal of which so many bytes are to come; or it is dropped.
#[derive(Clone, Copy)]
pub enum Place {
    Line(Tail),
    Literal(usize),
    Dropping,
}

// The place, the number of the command's bytes so far, and whether the last byte is CR, wherever it stands.
#[derive(Clone, Copy)]
pub struct Machine {
    pub place: Place,
    pub size: usize,
    pub cr: bool,
}

// What comes of a byte: nothing yet; the continuation line; a whole command; a refusal.
#[derive(Clone, Copy)]
pub enum Signal {
    Quiet,
    GoOn,
    Whole,
    Refused,
}

#[derive(Clone, Copy)]
pub struct Stepped {
    pub machine: Machine,
    pub signal: Signal,
}

impl Machine {
    // Before the first byte of a command.
    pub(crate) const FIRST: Machine = Machine {
        place: Place::Line(Tail::Text),
        size: 0,
        cr: false,
    };

    // Whether the command takes the byte: bytes are not dropped, and it is not refused.
    pub fn takes(self, b: u8) -> bool
        ensures { result ≡ takes self b }
    {
        !self.place.drops() & !offends(self.size, b)
    }

    // One byte more. "Where two causes meet, the earlier byte decides, and at one byte the length of the command comes before n".
    #[tactic(auto, unfolding(crate::specs::Machine::step_at))]
    pub fn step(self, b: u8) -> Stepped
        ensures { result ≡ step_is self b }
    {
        match self.place {
            Place::Dropping => Stepped {
                machine: dropped(self.cr, b),
                signal: Signal::Quiet,
            },
            _ if offends(self.size, b) => refused(self.cr, b),
            Place::Line(tail) => line_byte(tail, self.size + 1, b),
            Place::Literal(n) => literal_byte(n, self.size + 1, b),
        }
    }
}

impl Place {
    fn drops(self) -> bool
        ensures { result ≡ is_dropping self }
    {
        matches!(self, Place::Dropping)
    }
}

impl Tail {
    // Whether the line's last byte is CR.
    pub(crate) fn at_cr(self) -> bool
        ensures { result ≡ at_cr self }
    {
        matches!(self, Tail::Cr | Tail::Ending(_))
    }

    // With a byte more, which does not end the line.
    #[tactic(auto, unfolding(crate::specs::Machine::tail_is, crate::specs::Machine::tail_as, crate::specs::Machine::plain_is))]
    fn with(self, b: u8) -> Tail
        ensures { result ≡ tail_is self b }
    {
        if b == b'{' {
            return Tail::Open;
        }
        match self {
            Tail::Open if is_digit(b) => Tail::Digits(with_digit(0, b)),
            Tail::Digits(n) if is_digit(b) => Tail::Digits(with_digit(n, b)),
            Tail::Digits(n) if b == b'}' => Tail::Closed(n),
            Tail::Closed(n) if b == CR => Tail::Ending(n),
            _ => plain_tail(b),
        }
    }
}

// With a byte more that belongs to no header.
#[tactic(auto, unfolding(crate::specs::Machine::plain_is))]
fn plain_tail(b: u8) -> Tail
    ensures { result ≡ plain_is b }
{
    if b == CR { Tail::Cr } else { Tail::Text }
}

// "a byte 00 anywhere, or a command over 2,048 bytes in all is refused".
fn offends(size: usize, b: u8) -> bool
    ensures { result ≡ offending size b }
{
    (MAX_COMMAND <= size) | (b == 0)
}

// A byte that is dropped, after a CR or not: "bytes are dropped through the next CR LF".
#[tactic(auto, unfolding(crate::specs::Machine::dropped_is))]
fn dropped(cr: bool, b: u8) -> Machine
    ensures { result ≡ dropped_is cr b }
{
    if cr & (b == LF) {
        return Machine::FIRST;
    }
    Machine {
        place: Place::Dropping,
        size: 0,
        cr: b == CR,
    }
}

// The byte is refused: "dropping counts the offending byte and a CR just before it".
fn refused(cr: bool, b: u8) -> Stepped
    ensures { result ≡ refused_is cr b }
{
    Stepped {
        machine: dropped(cr, b),
        signal: Signal::Refused,
    }
}

// At this place, after a byte that is the command's byte of number `size`.
fn stands(place: Place, size: usize, b: u8, signal: Signal) -> Stepped
    ensures { result ≡ steps (standing place size b) signal }
{
    Stepped {
        machine: Machine {
            place,
            size,
            cr: b == CR,
        },
        signal,
    }
}

// A byte of a line outside literals: LF after CR ends it.
#[tactic(auto, unfolding(crate::specs::Machine::line_is))]
fn line_byte(tail: Tail, size: usize, b: u8) -> Stepped
    ensures { result ≡ line_is tail size b }
{
    match tail {
        Tail::Cr if b == LF => Stepped {
            machine: Machine::FIRST,
            signal: Signal::Whole,
        },
        Tail::Ending(n) if b == LF => announced(n, size),
        _ => text_byte(tail, size, b),
    }
}

// A byte that does not end the line.
fn text_byte(tail: Tail, size: usize, b: u8) -> Stepped
    ensures { result ≡ text_is tail size b }
{
    stands(Place::Line(tail.with(b)), size, b, Signal::Quiet)
}

// The line has ended that announces a literal of n bytes.
#[tactic(auto, unfolding(crate::specs::Machine::announced_is, crate::specs::Machine::awaiting_is))]
fn announced(n: usize, size: usize) -> Stepped
    ensures { result ≡ announced_is n size }
{
    if n == 0 {
        return stands(Place::Line(Tail::Text), size, LF, Signal::GoOn);
    }
    if n <= MAX_LITERAL {
        return stands(Place::Literal(n), size, LF, Signal::GoOn);
    }
    Stepped {
        machine: Machine::FIRST,
        signal: Signal::Refused,
    }
}

// A byte of a literal of which n bytes were to come.
#[tactic(auto, unfolding(crate::specs::Machine::awaiting_is))]
fn literal_byte(n: usize, size: usize, b: u8) -> Stepped
    ensures { result ≡ literal_is n size b }
{
    if n <= 1 {
        return stands(Place::Line(Tail::Text), size, b, Signal::Quiet);
    }
    stands(Place::Literal(n - 1), size, b, Signal::Quiet)
}
