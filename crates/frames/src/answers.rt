// The lines of answers: digits in upper case, a line feed after them.

ghost use Rattle.std.specs.Prelude.{◌∷◌, ◌/◌, ◌%◌};
ghost use Rattle.listing_rules.specs.Frames.{answer_line, refusal_line};
ghost use Rattle.octets.specs.Put.{Put};

use crate::hexadecimal::{put_hex, put_pair};
use crate::kinds::{REFUSAL, WALK};
use octets::LF;

// "52 and the number in one byte". The number is no Refusal: any number has a line.
pub fn put_refusal(buf: &mut [u8], at: usize, number: u8) -> usize
    ensures { Put buf.old buf.new at (refusal_line number) result }
{
    let a = put_pair(buf, at, REFUSAL);
    let b = put_pair(buf, a, number);
    octets::put(buf, b, LF)
}

// A kind byte and the bytes after it: "41 and the bytes".
pub fn put_line(buf: &mut [u8], at: usize, kind: u8, bytes: &[u8]) -> usize
    ensures { Put buf.old buf.new at (answer_line (kind ∷ bytes.now)) result }
{
    let a = put_pair(buf, at, kind);
    let b = put_hex(buf, a, bytes);
    octets::put(buf, b, LF)
}

// A walk's line: "57, count in 2 bytes, high first, found". Of a count over 65,535, which no walk has, the last two bytes.
pub fn put_walk(buf: &mut [u8], at: usize, count: usize, found: &[u8]) -> usize
    ensures { Put buf.old buf.new at (answer_line (0x57 ∷ count / 256 % 256 ∷ count % 256 ∷ found.now)) result }
{
    let a = put_pair(buf, at, WALK);
    let b = put_pair(buf, a, (count / 256 % 256) as u8);
    let c = put_pair(buf, b, (count % 256) as u8);
    let d = put_hex(buf, c, found);
    octets::put(buf, d, LF)
}
