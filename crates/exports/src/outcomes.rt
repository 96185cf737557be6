// Answers as C takes them: structs of numbers, where the crates below have results.
//
// Each struct has more than 16 bytes, so that it comes back in memory of the caller.
ghost use Rattle.std.specs.Prelude.{◌≡◌};
ghost use Rattle.octets.specs.Refusals.{numbered};
ghost use Rattle.summary.specs.Counts.{number_or_0};
ghost use Rattle.exports.specs.Outcomes.{done_case, written_case, collected_case, line_case};

use collector::Walked;
use line_reader::Parts;
use octets::{Refusal, filled};
use server::Stored;

// What a call that writes into lent memory answers: 0 and the length of what it wrote, for a walk with the number of commands
// sent; or the number of the refusal, length 0 and count 0. Of a command the count is the number of rows, on a refusal too, and `changed` is 1 where it
// changed a row, else 0; of all others it is 0.
#[repr(C)]
#[derive(Clone, Copy)]
pub struct Outcome {
    pub number: u8,
    pub changed: u8,
    pub length: usize,
    pub count: usize,
}

// What a line says: 0, its attributes (member k is 2 to the k), the criteria that CHILDINFO names (1 SUBSCRIBED, 2 SPECIAL-USE; 0
// without CHILDINFO), and its name, zero behind it; or the number of the refusal, with no attributes and an empty name.
#[repr(C)]
#[derive(Clone, Copy)]
pub struct LineParts {
    pub number: u8,
    pub criteria: u8,
    pub attributes: u16,
    pub length: usize,
    pub name: [u8; 200],
}

// What a call over words comes to: its answer in C's form, and the words that may have changed or moved, `from` up to `to`.
#[derive(Clone, Copy)]
pub(crate) struct Done<T> {
    pub answer: T,
    pub from: usize,
    pub to: usize,
}

// A command's case.
pub(crate) fn command_done(stored: Stored) -> Done<Outcome>
    ensures { result ≡ done_case stored }
{
    let changed = u8::from(stored.from < stored.to);
    Done {
        answer: written_outcome(stored.written, changed, stored.count),
        from: stored.from,
        to: stored.to,
    }
}

// The number of a refusal, or 0.
pub(crate) fn number_or_0(answer: Result<(), Refusal>) -> u8
    ensures { result ≡ number_or_0 answer }
{
    match answer {
        Ok(()) => 0,
        Err(refusal) => refusal.number(),
    }
}

pub(crate) fn written_outcome(written: Result<usize, Refusal>, changed: u8, count: usize) -> Outcome
    ensures { result ≡ written_case (numbered written) changed count }
{
    match written {
        Ok(length) => Outcome {
            number: 0,
            changed,
            length,
            count,
        },
        Err(refusal) => Outcome {
            number: refusal.number(),
            changed,
            length: 0,
            count,
        },
    }
}

impl From<Result<Walked, Refusal>> for Outcome {
    ghost from_gives = { λ collected r. r ≡ collected_case (numbered collected) };

    fn from(collected: Result<Walked, Refusal>) -> Outcome {
        match collected {
            Ok(walked) => Outcome {
                number: 0,
                changed: 0,
                length: walked.found,
                count: walked.count,
            },
            Err(refusal) => Outcome {
                number: refusal.number(),
                changed: 0,
                length: 0,
                count: 0,
            },
        }
    }
}

impl From<Result<Parts, Refusal>> for LineParts {
    ghost from_gives = { λ read r. r ≡ line_case (numbered read) };

    fn from(read: Result<Parts, Refusal>) -> LineParts {
        match read {
            Ok(parts) => {
                let name = parts.name;
                LineParts {
                    number: 0,
                    criteria: parts.criteria.bits,
                    attributes: parts.attributes.bits,
                    length: parts.len,
                    name,
                }
            }
            Err(refusal) => {
                let name = filled(0);
                LineParts {
                    number: refusal.number(),
                    criteria: 0,
                    attributes: 0,
                    length: 0,
                    name,
                }
            }
        }
    }
}
