// Frames of a log (document 02, W14) read from their characters, and a recorded answer compared with bytes. The bytes of an answer are not
// decoded: they are compared where their digits stand.

ghost use Rattle.std.specs.Prelude.{◌≡◌};
ghost use Rattle.listing_rules.specs.Bytes.{same};
ghost use Rattle.listing_rules.specs.Replay.{read_logged};
ghost use Rattle.frames.specs.Hexadecimal.{decoded};
ghost use Rattle.frames.specs.Logged.{CommandRead, recorded_is};

use crate::hexadecimal::{is_hex, pair_value};
use crate::kinds::{ANSWER, COMMAND, REFUSAL};
use crate::reading::{Frame, read_frame};

// "In a log a frame of 41 may have up to 32,770 digits".
const MAX_ANSWER_DIGITS: usize = 32770;

// The longest command of a log: a reader, and the 2,049 bytes that 4,102 digits leave beside it and the first byte.
pub const MAX_COMMAND: usize = 2050;

// What a frame of a log records as answered: 41, whose bytes stay in the digits after its first two; or 52 and its number.
#[derive(Clone, Copy)]
pub enum Recorded {
    Answer,
    Number(u8),
}

// The answer that the characters before a line feed record, if they do.
pub fn read_recorded(line: &[u8]) -> Option<Recorded>
    ensures { result ≡ recorded_is (read_logged line.now) }
{
    if MAX_ANSWER_DIGITS < line.len() {
        return None;
    }
    if line.len() < 2 {
        return None;
    }
    if !is_hex(line) {
        return None;
    }
    let kind = pair_value(line[0], line[1]);
    if kind == ANSWER {
        return Some(Recorded::Answer);
    }
    if kind != REFUSAL {
        return None;
    }
    if line.len() != 4 {
        return None;
    }
    Some(Recorded::Number(pair_value(line[2], line[3])))
}

// The command of the characters before a line feed: how many bytes it has, its reader first and then its line, at the front of the lent bytes.
// Where the characters are none or it does not fit, no byte changes. 2,050 lent bytes are enough for any command.
pub fn read_command(line: &[u8], bytes: &mut [u8]) -> Option<usize>
    ensures { CommandRead line.now bytes.old bytes.new result }
{
    if line.len() < 2 {
        return None;
    }
    if pair_value(line[0], line[1]) != COMMAND {
        return None;
    }
    let frame = read_frame(line, bytes)?;
    match frame {
        Frame::Command(_, n) => Some(n + 1),
        _ => None,
    }
}

// Whether the bytes of the pairs of digits are these.
pub fn same_digits(digits: &[u8], bytes: &[u8]) -> bool
    ensures { result ≡ same (decoded digits.now) bytes.now }
{
    if digits.len() / 2 != bytes.len() {
        return false;
    }
    for (i, b) in bytes.iter().enumerate() {
        let at = 2 * i;
        if pair_value(digits[at], digits[at + 1]) != *b {
            return false;
        }
    }
    true
}
