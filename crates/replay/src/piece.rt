// A piece of a log, and the report if the log ends with it.

ghost use Rattle.std.specs.Prelude.{◌≡◌};
ghost use Rattle.replay.specs.Holding.{memory};
ghost use Rattle.replay.specs.Resuming.{Resumes};

use crate::{Replaying, Verdict, feed, finish};

// What comes of a piece: the report if the log ends with it, and the state then, of which `rows` is the number of rows.
#[derive(Clone, Copy)]
pub struct Piece {
    pub verdict: Verdict,
    pub state: Replaying,
}

// One piece of a log, of any length, taken whole, from a state on. A piece that is not taken leaves all as it is.
pub fn replay_piece(
    state: Replaying,
    words: &mut [u64],
    sums: &mut [u64],
    area: &mut [u8],
    namespaces: &[u8],
    pending: &mut [u8],
    line: &mut [u8],
    piece: &[u8],
) -> Option<Piece>
    ensures { Resumes namespaces.now piece.now
        (memory words.old sums.old area.old pending.old line.old)
        (memory words.new sums.new area.new pending.new line.new) state result }
{
    let next = feed(state, words, sums, area, namespaces, pending, line, piece)?;
    let verdict = finish(next);
    Some(Piece {
        verdict,
        state: next,
    })
}
