// What a replay reports.

ghost use Rattle.std.specs.Prelude.{◌≡◌};
ghost use Rattle.listing_rules.specs.Replay.{replay_number, replay_frame};
ghost use Rattle.replay.specs.Reports.{meant_by, Finishes};

use crate::Replaying;
use octets::{Refusal, advance};

// The number of a frame where there is none to report.
const NO_FRAME: usize = 0;

// That all agree, the number of the first frame of 43 whose recorded answer differs, or that 13 stopped it and the number of the frame.
#[derive(Clone, Copy)]
pub enum Verdict {
    Agrees,
    Differs(usize),
    Stopped(usize),
}

impl Verdict {
    // The number of refusal: 13 where it was stopped, else 0.
    pub fn number(self) -> u8
        ensures { result ≡ replay_number (meant_by self) }
    {
        match self {
            Verdict::Agrees => 0,
            Verdict::Differs(_) => 0,
            Verdict::Stopped(_) => Refusal::BadFrame.number(),
        }
    }

    // The number of the frame that differs or that stopped it, 0 where all agree.
    pub fn frame(self) -> usize
        ensures { result ≡ replay_frame (meant_by self) }
    {
        match self {
            Verdict::Agrees => NO_FRAME,
            Verdict::Differs(k) => k,
            Verdict::Stopped(k) => k,
        }
    }
}

// The end of the log. Its table is then what the lent memory holds, and `rows` of the state its count.
pub fn finish(state: Replaying) -> Verdict
    ensures { Finishes state result }
{
    if state.stopped {
        return Verdict::Stopped(state.frames);
    }
    if state.gathered != 0 {
        return Verdict::Stopped(advance(state.frames, 1));
    }
    if state.due != 0 {
        return Verdict::Stopped(state.frames);
    }
    if state.first != 0 {
        return Verdict::Differs(state.first);
    }
    Verdict::Agrees
}
