// The characters of a frame, gathered from the input one by one into a lent line. Of an overlong frame no more is kept than that
// it is one.

ghost use Rattle.frames.specs.Gathering.{Gathers, IsEmpty, GatheredRead};

use crate::reading::{Frame, MAX_DIGITS, read_frame};

// How many characters lie at the front of the line; none where there were more than a frame may have.
#[derive(Clone, Copy)]
pub struct Gathered {
    pub len: Option<usize>,
}

impl Gathered {
    // No character yet: what any line holds at the start of a frame.
    pub const NONE: Gathered = Gathered { len: Some(0) };

    // Whether there was no character yet.
    pub fn is_empty(self) -> bool
        ensures { IsEmpty self result }
    {
        match self.len {
            Some(n) => n == 0,
            None => false,
        }
    }
}

// One character more. That a line feed ends the frame is the caller's to see: here it is a character as any other. The line is
// lent 4,102 bytes or more, of which the first 4,102 are used; a shorter one is full earlier.
pub fn gather(line: &mut [u8], g: Gathered, c: u8) -> Gathered
    ensures { Gathers line.old line.new g c result }
{
    let Some(n) = g.len else {
        return g;
    };
    if n < MAX_DIGITS {
        if n < line.len() {
            line[n] = c;
            return Gathered { len: Some(n + 1) };
        }
    }
    Gathered { len: None }
}

// The frame of the characters gathered: none if there were too many of them, else what read_frame finds.
pub fn read_gathered(line: &[u8], g: Gathered, bytes: &mut [u8]) -> Option<Frame>
    ensures { GatheredRead line.now g bytes.old bytes.new result }
{
    let n = g.len?;
    if line.len() < n {
        return None;
    }
    read_frame(&line[..n], bytes)
}
