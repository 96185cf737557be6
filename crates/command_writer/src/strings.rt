// Tags and strings of a command: which bytes they may have, and how a string is written.
ghost use Rattle.std.specs.Prelude.{◌≡◌, ◌&&◌, not, eqb};
ghost use Rattle.listing_rules.specs.Bytes.{all, is_empty};
ghost use Rattle.listing_rules.specs.Tokens.{atom_byte, tag_byte, line_byte};
ghost use Rattle.listing_rules.specs.Walk.{when};
ghost use Rattle.listing_rules.specs.Joining.{can_stand, decimal_text, digit_of, string_text};
ghost use Rattle.octets.specs.Put.{Put};

use octets::{BACKSLASH, CR, LF, QUOTE, put, put_all, put_quoted};

// The bytes that a literal has at most.
const MAX_LITERAL: usize = 1024;

// An atom byte: printable, and none of ( ) { % * " \ ]
fn is_atom_byte(b: u8) -> bool
    ensures { result ≡ atom_byte b }
{
    let special = (b == b'(')
        | (b == b')')
        | (b == b'{')
        | (b == b'%')
        | (b == b'*')
        | (b == QUOTE)
        | (b == BACKSLASH)
        | (b == b']');
    (0x21 <= b) & (b <= 0x7E) & !special
}

// A byte of a tag: an atom byte or "]", and no "+".
fn is_tag_byte(b: u8) -> bool
    ensures { result ≡ tag_byte b }
{
    (is_atom_byte(b) | (b == b']')) & !(b == b'+')
}

// A byte that may stand in quotes: 01 to 7F other than CR and LF.
fn is_line_byte(b: u8) -> bool
    ensures { result ≡ line_byte b }
{
    (0x01 <= b) & (b <= 0x7F) & !(b == CR) & !(b == LF)
}

// Whether the bytes are a tag: one or more, each a byte of a tag.
pub(crate) fn is_tag(tag: &[u8]) -> bool
    ensures { result ≡ (not (is_empty tag.now) && all tag_byte tag.now) }
{
    !tag.is_empty() & all_of_tag(tag)
}

// Whether every byte is one of a tag.
fn all_of_tag(s: &[u8]) -> bool
    ensures { result ≡ all tag_byte s.now }
{
    s.iter().all(|b| is_tag_byte(*b))
}

// Whether every byte may stand in quotes.
fn all_of_line(s: &[u8]) -> bool
    ensures { result ≡ all line_byte s.now }
{
    s.iter().all(|b| is_line_byte(*b))
}

// Whether no byte is 00.
fn all_not_zero(s: &[u8]) -> bool
    ensures { result ≡ all (λ b. not (eqb b 0)) s.now }
{
    s.iter().all(|b| *b != 0)
}

// Whether a line can hold the string, in quotes or as a literal.
pub(crate) fn can_stand(s: &[u8]) -> bool
    ensures { result ≡ can_stand s.now }
{
    all_of_line(s) | ((s.len() <= MAX_LITERAL) & all_not_zero(s))
}

// The last decimal digit of a number, where it is shown.
fn put_digit(buf: &mut [u8], at: usize, shown: bool, n: usize) -> usize
    ensures { Put buf.old buf.new at (when shown (digit_of n)) result }
{
    if !shown {
        return at;
    }
    put(buf, at, b'0' + (n % 10) as u8)
}

// A number in decimal digits, of which at most four are written.
fn put_number(buf: &mut [u8], at: usize, n: usize) -> usize
    ensures { Put buf.old buf.new at (decimal_text n) result }
{
    let thousands = put_digit(buf, at, 1000 <= n, n / 1000);
    let hundreds = put_digit(buf, thousands, 100 <= n, n / 100);
    let tens = put_digit(buf, hundreds, 10 <= n, n / 10);
    put_digit(buf, tens, true, n)
}

// A string in quotes; or as a literal, `{n}` CR LF and the n bytes, where a byte may not stand in quotes.
pub(crate) fn put_string(buf: &mut [u8], at: usize, s: &[u8]) -> usize
    ensures { Put buf.old buf.new at (string_text s.now) result }
{
    if all_of_line(s) {
        return put_quoted(buf, at, s);
    }
    let open = put(buf, at, b'{');
    let size = put_number(buf, open, s.len());
    let head = put_all(buf, size, b"}\r\n");
    put_all(buf, head, s)
}
