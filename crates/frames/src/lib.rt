// The frames of the program as runs of hexadecimal digits, apart from what a frame means: the characters of a frame gathered
// from the input, a frame read, the bytes of a frame stored, the lines of answers written, and the frames of a log.
//
// No public function asks anything of its caller, and a refusal changes no byte of the lent memory.
#![tactic(auto)]

mod answers;
mod gathering;
mod hexadecimal;
mod kinds;
mod logs;
mod reading;
mod storing;

pub use answers::{put_line, put_refusal, put_walk};
pub use gathering::{Gathered, gather, read_gathered};
pub use kinds::ANSWER;
pub use logs::{MAX_COMMAND, Recorded, read_command, read_recorded, same_digits};
pub use reading::{Frame, MAX_DIGITS};
pub use storing::store;
