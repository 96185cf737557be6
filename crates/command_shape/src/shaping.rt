// What a byte of a line does to its shape, by the machine that read those before it.

ghost use Rattle.std.specs.Prelude.{◌≡◌};
ghost use Rattle.command_shape.specs.Shaping.{allowed_by, shape_step};

use crate::{Machine, Place, Signal, is_line_byte};
use octets::{CR, LF};

// The byte may not stand there; the line ends with it, and a whole command with the line; the line goes on.
#[derive(Clone, Copy)]
pub(crate) enum Shaping {
    Bad,
    Last,
    Further(Machine),
}

impl Machine {
    // Whether the byte may stand there: in a literal any, after CR the LF, and else a line byte or CR.
    #[tactic(auto, unfolding(crate::specs::Shaping::allowed_by, crate::specs::Shaping::allowed_at))]
    fn allows(self, b: u8) -> bool
        ensures { result ≡ allowed_by self b }
    {
        match self.place {
            Place::Line(tail) if tail.at_cr() => b == LF,
            Place::Line(_) => is_line_byte(b) | (b == CR),
            Place::Literal(_) | Place::Dropping => true,
        }
    }

    #[tactic(auto, unfolding(crate::specs::Shaping::shape_step, crate::specs::Shaping::shaping_as))]
    pub(crate) fn shapes(self, b: u8) -> Shaping
        ensures { result ≡ shape_step self b }
    {
        if !self.allows(b) {
            return Shaping::Bad;
        }
        let stepped = self.step(b);
        match stepped.signal {
            Signal::Quiet | Signal::GoOn => Shaping::Further(stepped.machine),
            Signal::Whole => Shaping::Last,
            Signal::Refused => Shaping::Bad,
        }
    }
}
