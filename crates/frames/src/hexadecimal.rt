// Bytes as pairs of hexadecimal digits: read in either case, written in upper case.

ghost use Rattle.std.specs.Prelude.{◌≡◌, [], ◌∷◌, ◌<◌};
ghost use Rattle.listing_rules.specs.Frames.{digit, bytes_of, hex_digit, hex};
ghost use Rattle.octets.specs.Put.{Put};
ghost use Rattle.frames.specs.Hexadecimal.{digit_is, is_some, value_of, pair_of, decoded};

// "either case": 0 to 9, A to F and a to f, which stand for 10 to 15.
pub(crate) fn read_digit(c: u8) -> Option<u8>
    ensures { result ≡ digit_is (digit c) }
{
    if (b'0' <= c) & (c <= b'9') {
        return Some(c - 48);
    }
    if (b'A' <= c) & (c <= b'F') {
        return Some(c - 55);
    }
    if (b'a' <= c) & (c <= b'f') {
        return Some(c - 87);
    }
    None
}

// The value of a digit; 0 for another character, which is_hex tells apart.
fn digit_value(c: u8) -> u8
    ensures { (result ≡ value_of c) × (result < 16) }
{
    read_digit(c).unwrap_or(0)
}

// The byte of two digits, the high one first.
pub(crate) fn pair_value(high: u8, low: u8) -> u8
    ensures { result ≡ pair_of high low }
{
    16 * digit_value(high) + digit_value(low)
}

// Whether the characters are digits, and an even number of them.
pub(crate) fn is_hex(line: &[u8]) -> bool
    ensures { result ≡ is_some (bytes_of line.now) }
{
    if line.len() % 2 != 0 {
        return false;
    }
    line.iter().all(|c| read_digit(*c).is_some())
}

// The bytes of the pairs of digits, from a place on. A last digit with none beside it gives no byte.
pub(crate) fn put_decoded(buf: &mut [u8], at: usize, line: &[u8]) -> usize
    ensures { Put buf.old buf.new at (decoded line.now) result }
{
    let mut to = at;
    for i in 0..line.len() / 2 {
        to = octets::put(buf, to, pair_value(line[2 * i], line[2 * i + 1]));
    }
    to
}

// The character of a digit's value: 0 to 9 from 48 on, A to F from 65 on.
fn hex_digit(d: u8) -> u8
    requires { d < 16 }
    ensures { result ≡ hex_digit d }
{
    if d <= 9 {
        return 48 + d;
    }
    55 + d
}

// One byte's two digits, the high one first.
pub(crate) fn put_pair(buf: &mut [u8], at: usize, b: u8) -> usize
    ensures { Put buf.old buf.new at (hex (b ∷ [])) result }
{
    let to = octets::put(buf, at, hex_digit(b / 16));
    octets::put(buf, to, hex_digit(b % 16))
}

// The digits of bytes.
pub(crate) fn put_hex(buf: &mut [u8], at: usize, bytes: &[u8]) -> usize
    ensures { Put buf.old buf.new at (hex bytes.now) result }
{
    let mut to = at;
    for b in bytes {
        to = put_pair(buf, to, *b);
    }
    to
}
