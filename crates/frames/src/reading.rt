// One frame read from its characters.

ghost use Rattle.std.specs.Prelude.{◌≡◌};
ghost use Rattle.frames.specs.Reading.{kind_is, FrameRead};

use crate::hexadecimal::{is_hex, pair_value, put_decoded};
use crate::kinds::{COMMAND, NAMESPACES, TABLE, WALK};

// W9: "the frame limit becomes 4,102 digits".
pub const MAX_DIGITS: usize = 4102;

// What a frame says. The bytes behind its first byte lie at the front of the lent bytes: of a row or an entry, how many. Of a command its
// reader, which is the first of them, and how many are its line behind that; of a walk its reader and option byte.
#[derive(Clone, Copy)]
pub enum Frame {
    Table(usize),
    Namespaces(usize),
    Command(u8, usize),
    Walk(u8, u8),
}

// The frame of a first byte with n bytes behind it, of which these are the first two; none where no such frame begins so.
fn kind_of(kind: u8, n: usize, reader: u8, option: u8) -> Option<Frame>
    ensures { result ≡ kind_is kind n reader option }
{
    match kind {
        TABLE => Some(Frame::Table(n)),
        NAMESPACES => Some(Frame::Namespaces(n)),
        COMMAND => {
            if n == 0 {
                None
            } else {
                Some(Frame::Command(reader, n - 1))
            }
        },
        WALK => {
            if n == 2 {
                Some(Frame::Walk(reader, option))
            } else {
                None
            }
        },
        _ => None,
    }
}

// The frame of the characters before a line feed; none where they are bad, or where its bytes do not fit the lent bytes: 2,050 are
// enough for any frame. A bad frame changes no byte, any other only the bytes that it holds.
pub(crate) fn read_frame(line: &[u8], bytes: &mut [u8]) -> Option<Frame>
    ensures { FrameRead line.now bytes.old bytes.new result }
{
    if MAX_DIGITS < line.len() {
        return None;
    }
    if line.len() < 2 {
        return None;
    }
    if !is_hex(line) {
        return None;
    }
    let n = line.len() / 2 - 1;
    if bytes.len() < n {
        return None;
    }
    let reader = pair_value(octets::byte_at(line, 2), octets::byte_at(line, 3));
    let option = pair_value(octets::byte_at(line, 4), octets::byte_at(line, 5));
    let frame = kind_of(pair_value(line[0], line[1]), n, reader, option)?;
    put_decoded(bytes, 0, &line[2..]);
    Some(frame)
}
