// A literal: the number of its bytes in braces, CR LF, and the bytes themselves, whatever they are. Its span is those bytes, so
// nothing is copied.

ghost use Rattle.std.specs.Prelude.{◌≡◌, ◌++◌, min, drop};
ghost use Rattle.listing_rules.specs.Bytes.{text as spelled, crlf};
ghost use Rattle.listing_rules.specs.Tokens.{after, decimal, literal};
ghost use Rattle.command_tokens.specs.Tokens.{token_is, behind_is, TokenIn, BehindIn};

use crate::spans::raw;
use crate::tokens::Class;
use crate::{Cursor, Span};
use command_shape::{MAX_LITERAL, with_digit};
use octets::{CR, LF};

// The number that the digits spell, however many they are; one more than the largest literal for any number above that.
fn number(digits: &[u8]) -> usize
    ensures { result ≡ min (decimal 0 digits.now) 1025 }
{
    let mut n = 0;
    for digit in digits {
        n = with_digit(n, *digit);
    }
    n
}

impl Cursor {
    // "}" CR LF
    fn header_end(self, text: &[u8]) -> Option<Cursor>
        ensures result_value { behind_is text.now result ≡ after (spelled "}" ++ crlf) (drop self.at text.now) }
        ensures behind_in { BehindIn text.now self.at result }
    {
        let second = self.byte(text, b'}')?;
        let third = second.byte(text, CR)?;
        third.byte(text, LF)
    }

    // 1*digit "}" CR LF *byte, after the opening brace; as many bytes as the number says
    pub(crate) fn literal(self, text: &[u8]) -> Option<(Span, Cursor)>
        ensures result_value { token_is text.now result ≡ literal (drop self.at text.now) }
        ensures token_in { TokenIn text.now self.at result }
    {
        let (digits, behind) = self.run(text, Class::Digit)?;
        let size = number(raw(text, digits));
        let first = behind.header_end(text)?;
        if MAX_LITERAL < size {
            return None;
        }
        let start = first.at;
        if text.len() - start < size {
            return None;
        }
        Some((
            Span {
                start,
                end: start + size,
                quoted: false,
            },
            Cursor { at: start + size },
        ))
    }
}
