// The tokens of a line: methods of the cursor, each of which gives the token that stands at its place and the cursor after it, or
// nothing. The text is the line without its last CR LF.
//
// Each promise is an equation with the definition of document 01 of the same name, and says besides that the token lies inside.

ghost use Rattle.std.specs.Prelude.{◌≡◌, false, [], ◌∷◌, drop};
ghost use Rattle.listing_rules.specs.Bytes.{text as spelled};
ghost use Rattle.listing_rules.specs.Tokens.{after, run₁, atom, quoted_text, string_or, astring, pattern, atom_byte, tag_byte};
ghost use Rattle.command_tokens.specs.Tokens.{class_byte, token_is, behind_is, TokenIn, BareIn, BehindIn, quoted_step, argument};

use crate::{Cursor, Span};
use command_shape::{is_digit, is_line_byte};
use octets::{BACKSLASH, QUOTE, byte_at};

// The classes of bytes of which a bare token is a run.
#[derive(Clone, Copy)]
pub(crate) enum Class {
    Tag,
    Atom,
    Astring,
    Pattern,
    Digit,
}

// An atom byte: printable, and none of ( ) { % * " \ ]
fn is_atom(b: u8) -> bool
    ensures { result ≡ atom_byte b }
{
    b.is_ascii_graphic() & !b"(){%*\"\\]".contains(&b)
}

impl Class {
    // Whether a byte is of the class: a tag has "]" besides atom bytes and no "+", an astring "]", a pattern "]", "%" and "*";
    // a number has digits.
    fn holds(self, b: u8) -> bool
        ensures { result ≡ class_byte self b }
    {
        match self {
            Class::Tag => (is_atom(b) | (b == b']')) & !(b == b'+'),
            Class::Atom => is_atom(b),
            Class::Astring => is_atom(b) | (b == b']'),
            Class::Pattern => is_atom(b) | b"]%*".contains(&b),
            Class::Digit => is_digit(b),
        }
    }
}

// What a byte of a quoted string does: the string goes on, and whether the byte escapes the next one; it ends; it is off the grammar.
#[derive(Clone, Copy)]
pub(crate) enum Quote {
    More(bool),
    End,
    Bad,
}

// An escaped byte is a quote or a backslash; else a quote ends the string, and other bytes are those of a line.
fn quoted_step(escaped: bool, b: u8) -> Quote
    ensures { result ≡ quoted_step escaped b }
{
    if escaped {
        if (b == QUOTE) | (b == BACKSLASH) {
            Quote::More(false)
        } else {
            Quote::Bad
        }
    } else if b == QUOTE {
        Quote::End
    } else if is_line_byte(b) {
        Quote::More(b == BACKSLASH)
    } else {
        Quote::Bad
    }
}

impl Cursor {
    // 1*byte: the longest run of bytes of the class
    pub(crate) fn run(self, text: &[u8], class: Class) -> Option<(Span, Cursor)>
        ensures result_value { token_is text.now result ≡ run₁ (class_byte class) (drop self.at text.now) }
        ensures bare_in { BareIn text.now self.at result }
    {
        let start = self.at;
        if text.len() < start {
            return None;
        }
        // From the slice on: `skip` would count its way there at each token.
        let length = text[start..]
            .iter()
            .take_while(|b| class.holds(**b))
            .count();
        if length == 0 {
            return None;
        }
        let end = start + length;
        Some((
            Span {
                start,
                end,
                quoted: false,
            },
            Cursor { at: end },
        ))
    }

    // *(line-byte / "\" (QUOTE / "\")) QUOTE, after the first quote
    fn quoted(self, text: &[u8]) -> Option<(Span, Cursor)>
        ensures result_value { token_is text.now result ≡ quoted_text (drop self.at text.now) }
        ensures token_in { TokenIn text.now self.at result }
    {
        let start = self.at;
        let mut escaped = false;
        for end in start..text.len() {
            match quoted_step(escaped, text[end]) {
                Quote::More(e) => escaped = e,
                Quote::End => {
                    return Some((
                        Span {
                            start,
                            end,
                            quoted: true,
                        },
                        Cursor { at: end + 1 },
                    ));
                }
                Quote::Bad => return None,
            }
        }
        None
    }

    // quoted / literal / 1*byte
    fn string_or(self, text: &[u8], class: Class) -> Option<(Span, Cursor)>
        ensures result_value { token_is text.now result ≡ string_or (class_byte class) (drop self.at text.now) }
        ensures token_in { TokenIn text.now self.at result }
    {
        let at = self.at;
        let b = byte_at(text, at);
        if b == QUOTE {
            let inside = Cursor { at: at + 1 };
            return inside.quoted(text);
        }
        if b == b'{' {
            let header = Cursor { at: at + 1 };
            return header.literal(text);
        }
        self.run(text, class)
    }

    // A method for each token stays over `run` and `string_or`: other crates call them, and each promises a rule of document 01.

    // tag = 1*(atom-byte / "]"), no "+"
    pub fn tag(self, text: &[u8]) -> Option<(Span, Cursor)>
        ensures result_value { token_is text.now result ≡ run₁ tag_byte (drop self.at text.now) }
        ensures bare_in { BareIn text.now self.at result }
    {
        self.run(text, Class::Tag)
    }

    // atom = 1*atom-byte; the word of a command is one too
    pub fn atom(self, text: &[u8]) -> Option<(Span, Cursor)>
        ensures result_value { token_is text.now result ≡ atom (drop self.at text.now) }
        ensures bare_in { BareIn text.now self.at result }
    {
        self.run(text, Class::Atom)
    }

    // astring = quoted / literal / 1*(atom-byte / "]")
    pub(crate) fn astring(self, text: &[u8]) -> Option<(Span, Cursor)>
        ensures result_value { token_is text.now result ≡ astring (drop self.at text.now) }
        ensures token_in { TokenIn text.now self.at result }
    {
        self.string_or(text, Class::Astring)
    }

    // pattern = quoted / literal / 1*(atom-byte / "]" / "%" / "*")
    pub fn pattern(self, text: &[u8]) -> Option<(Span, Cursor)>
        ensures result_value { token_is text.now result ≡ pattern (drop self.at text.now) }
        ensures token_in { TokenIn text.now self.at result }
    {
        self.string_or(text, Class::Pattern)
    }

    // one given byte
    pub(crate) fn byte(self, text: &[u8], b: u8) -> Option<Cursor>
        ensures result_value { behind_is text.now result ≡ after (b ∷ []) (drop self.at text.now) }
        ensures behind_in { BehindIn text.now self.at result }
    {
        let here = *text.get(self.at)?;
        (here == b).then_some(Cursor { at: self.at + 1 })
    }

    // SP
    pub fn space(self, text: &[u8]) -> Option<Cursor>
        ensures result_value { behind_is text.now result ≡ after (spelled " ") (drop self.at text.now) }
        ensures behind_in { BehindIn text.now self.at result }
    {
        self.byte(text, b' ')
    }

    // SP "("
    pub fn opening(self, text: &[u8]) -> Option<Cursor>
        ensures result_value { behind_is text.now result ≡ after (spelled " (") (drop self.at text.now) }
        ensures behind_in { BehindIn text.now self.at result }
    {
        let next = self.byte(text, b' ')?;
        next.byte(text, b'(')
    }

    // SP astring: the reference of LIST
    pub fn argument(self, text: &[u8]) -> Option<(Span, Cursor)>
        ensures result_value { token_is text.now result ≡ argument (drop self.at text.now) }
        ensures token_in { TokenIn text.now self.at result }
    {
        let next = self.space(text)?;
        next.astring(text)
    }
}
