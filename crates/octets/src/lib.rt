// Runs of bytes: reading with a default, comparing, clearing, and the one way in which bytes are stored into an answer. Sets of named members.
//
// A writer never fails. It stores what lies in the buffer and counts its place on behind the buffer's end, so the same function
// that writes an answer also measures it, over an empty buffer, before a byte is touched.
#![tactic(auto)]

mod members;
mod refusals;

ghost use Rattle.std.specs.Prelude.{◌≡◌, [], ◌∷◌, ◌+◌, ◌-◌, ◌^◌, min, length, get_or, replicate};
ghost use Rattle.listing_rules.specs.Bytes.{same, spells, raise};
ghost use Rattle.listing_rules.specs.Lines.{escaped, quoted};
ghost use Rattle.octets.specs.Put.{Put};
ghost use Rattle.octets.specs.Escape.{escape_of};

pub use members::Members;
pub use refusals::Refusal;

pub const QUOTE: u8 = 34;

pub const BACKSLASH: u8 = 92;

pub const SLASH: u8 = 47;

pub const CR: u8 = 13;

pub const LF: u8 = 10;

// A byte as a number of the machine's width.
pub fn wide(b: u8) -> usize
    ensures { result ≡ b }
{
    b as usize
}

// The lesser of two numbers.
pub fn least(a: usize, b: usize) -> usize
    ensures { result ≡ min a b }
{
    a.min(b)
}

// The byte at a place, 0 behind the end.
pub fn byte_at(s: &[u8], i: usize) -> u8
    ensures { result ≡ get_or s.now i 0 }
{
    s.get(i).copied().unwrap_or(0)
}

// A letter a to z raised to A to Z; other bytes as they are.
pub fn raised_byte(b: u8) -> u8
    ensures { result ≡ raise b }
{
    b.to_ascii_uppercase()
}

// Whether the two runs are the same.
pub fn same_bytes(a: &[u8], b: &[u8]) -> bool
    ensures { result ≡ same a.now b.now }
{
    a == b
}

// Whether the run is the word in any case of letters; the word is written without small letters.
pub fn spells_word(s: &[u8], word: &[u8]) -> bool
    ensures { result ≡ spells s.now word.now }
{
    s.len() == word.len() && s.iter().zip(word).all(|(b, w)| raised_byte(*b) == *w)
}

// Zeros in the whole buffer.
pub fn clear(buf: &mut [u8])
    ensures { buf.new ≡ replicate (length buf.old) 0 }
{
    buf.fill(0);
}

// An array with the same value in each place.
pub fn filled<T: Copy, const N: usize>(value: T) -> [T; N]
    ensures { result ≡ replicate N value }
{
    [value; N]
}

// The place n bytes on, at most the largest number.
pub fn advance(at: usize, n: usize) -> usize
    ensures { result ≡ min (at + n) (2 ^ 64 - 1) }
{
    at.saturating_add(n)
}

// A byte at a place, where it lies in the buffer.
pub fn put(buf: &mut [u8], at: usize, b: u8) -> usize
    ensures { Put buf.old buf.new at (b ∷ []) result }
{
    if at < buf.len() {
        buf[at] = b;
    }
    advance(at, 1)
}

// How many of n bytes from a place on lie in a buffer of this length.
fn room_for(len: usize, at: usize, n: usize) -> usize
    ensures { result ≡ min n (len - at) }
{
    n.min(len.saturating_sub(at))
}

// The bytes of s from a place on.
pub fn put_all(buf: &mut [u8], at: usize, s: &[u8]) -> usize
    ensures { Put buf.old buf.new at s.now result }
{
    let n = room_for(buf.len(), at, s.len());
    for i in 0..n {
        buf[at + i] = s[i];
    }
    advance(at, s.len())
}

// How many bytes of s take a backslash in quotes.
fn escapes(s: &[u8]) -> usize
    ensures { length s.now + result ≡ length (escaped s.now) }
{
    s.iter()
        .filter(|b| **b == QUOTE || **b == BACKSLASH)
        .count()
}

// A byte as it stands in quotes: behind a backslash where it is a quote or a backslash.
fn put_escape(buf: &mut [u8], at: usize, b: u8) -> usize
    ensures { Put buf.old buf.new at (escape_of b) result }
{
    if (b == QUOTE) | (b == BACKSLASH) {
        let to = put(buf, at, BACKSLASH);
        return put(buf, to, b);
    }
    put(buf, at, b)
}

// The bytes of s as they stand in quotes, one by one.
fn put_escapes(buf: &mut [u8], at: usize, s: &[u8]) -> usize
    ensures { Put buf.old buf.new at (escaped s.now) result }
{
    let mut to = at;
    for b in s {
        to = put_escape(buf, to, *b);
    }
    to
}

// The bytes of s as they stand in quotes. Most names have nothing to escape, and are copied in one piece.
fn put_escaped(buf: &mut [u8], at: usize, s: &[u8]) -> usize
    ensures { Put buf.old buf.new at (escaped s.now) result }
{
    if escapes(s) == 0 {
        return put_all(buf, at, s);
    }
    put_escapes(buf, at, s)
}

// A quoted string.
pub fn put_quoted(buf: &mut [u8], at: usize, s: &[u8]) -> usize
    ensures { Put buf.old buf.new at (quoted s.now) result }
{
    let a = put(buf, at, QUOTE);
    let b = put_escaped(buf, a, s);
    put(buf, b, QUOTE)
}
