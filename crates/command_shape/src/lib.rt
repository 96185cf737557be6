// Check 3 of document 01, with document 02's literals: the shape of a command, one byte at a time.
//
// `Machine` is what is kept between two bytes; `is_one_command` runs it over a line. No public function asks anything of its caller.
#![tactic(auto)]

ghost use Rattle.std.specs.Prelude.{◌≡◌};
ghost use Rattle.listing_rules.specs.Tokens.{line_byte, digit_byte};
ghost use Rattle.listing_rules.specs.Feeder.{first, one_command};
ghost use Rattle.command_shape.specs.Machine.{with_digit};

mod machine;
mod shaping;

pub use machine::{MAX_COMMAND, Machine, Place, Signal, Stepped, Tail};
use octets::{CR, LF};
use shaping::Shaping;

// "n up to 1,024".
pub const MAX_LITERAL: usize = 1024;

// "bytes 01 to 7F other than CR and LF".
pub fn is_line_byte(b: u8) -> bool
    ensures { result ≡ line_byte b }
{
    (0x01 <= b) & (b <= 0x7F) & !(b == CR) & !(b == LF)
}

// A decimal digit.
#[tactic(auto, unfolding(listing_rules::specs::Bytes::within, listing_rules::specs::Tokens::digit_byte))]
pub fn is_digit(b: u8) -> bool
    ensures { result ≡ digit_byte b }
{
    b.is_ascii_digit()
}

// A number with one digit more; above the largest literal it stays at one more than that, so it never overflows.
pub fn with_digit(n: usize, digit: u8) -> usize
    ensures { result ≡ with_digit n digit }
{
    let kept = n.min(MAX_LITERAL + 1);
    let value = usize::from(digit.saturating_sub(b'0'));
    (10 * kept + value).min(MAX_LITERAL + 1)
}

// line = *(*line-byte "{" number "}" CR LF *byte) *line-byte CR LF, the bytes after each number as many as it says
//
// The machine tells the literals apart, in one pass; over 2,048 bytes and a byte 00 are its own refusals.
pub fn is_one_command(line: &[u8]) -> bool
    ensures { result ≡ one_command first line.now }
{
    let mut machine = Machine::FIRST;
    for (i, b) in line.iter().enumerate() {
        match machine.shapes(*b) {
            Shaping::Bad => {
                return false;
            }
            Shaping::Last => {
                return line.len() <= i + 1;
            }
            Shaping::Further(next) => {
                machine = next;
            }
        }
    }
    false
}
