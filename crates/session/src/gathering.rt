// The characters of a frame from a piece of input.

ghost use Rattle.session.specs.Feeding.{Runs};

use frames::{Gathered, gather};
use octets::LF;

// What is gathered after the characters of a piece before its first line feed, and how many they were.
#[derive(Clone, Copy)]
pub(crate) struct Run {
    pub gathered: Gathered,
    pub used: usize,
}

// The characters before the first line feed, or all if there is none, gathered one by one.
pub(crate) fn gather_line(line: &mut [u8], g: Gathered, chunk: &[u8]) -> Run
    ensures { Runs chunk.now line.old line.new g result }
{
    let mut gathered = g;
    for (i, c) in chunk.iter().enumerate() {
        if *c == LF {
            return Run { gathered, used: i };
        }
        gathered = gather(line, gathered, *c);
    }
    Run {
        gathered,
        used: chunk.len(),
    }
}
