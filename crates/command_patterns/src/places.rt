// The patterns of a command as they stand in the line: one, or a list in parentheses.

ghost use Rattle.std.specs.Prelude.{◌≡◌, length, take, drop};
ghost use Rattle.listing_rules.specs.Tokens.{pattern};
ghost use Rattle.listing_rules.specs.Command.{parted, patterns};
ghost use Rattle.command_patterns.specs.Places.{no_patterns, with_span, patterns_is, up_to_eight, PlacedIn};

use crate::{MAX_PATTERNS, Patterns};
use command_tokens::{Cursor, Span};
use octets::byte_at;

impl Patterns {
    // No pattern, and eight empty places.
    pub fn none() -> Patterns
        ensures { result ≡ no_patterns }
    {
        Patterns {
            spans: [Span::NOWHERE; 8],
            count: 0,
        }
    }

    // One pattern more.
    pub fn with(self, span: Span) -> Patterns
        ensures { result ≡ with_span self span }
    {
        let mut next = self;
        let at = next.count;
        if MAX_PATTERNS <= at {
            next.count = MAX_PATTERNS + 1;
            return next;
        }
        next.spans[at] = span;
        next.count = at + 1;
        next
    }

    // The places that hold a pattern.
    pub(crate) fn places(&self) -> &[Span]
        ensures { result.now ≡ take self.now.count self.now.spans }
    {
        &self.spans[..self.count.min(MAX_PATTERNS)]
    }
}

// pattern *(SP pattern) ")", after the opening parenthesis: the patterns, and what stands after them
fn read_parted(text: &[u8], first: Cursor) -> Option<(Patterns, Cursor)>
    ensures result_value { patterns_is text.now result
        ≡ up_to_eight (parted pattern (length (drop first.at text.now)) (drop first.at text.now)) }
    ensures placed { PlacedIn text.now result }
{
    let mut found = Patterns::none();
    let mut at = first.at;

    // A `for` would be no plainer: the place goes on by what each pattern takes of the line.
    loop {
        let here = Cursor { at };
        let (span, next) = here.pattern(text)?;
        found = found.with(span);
        let end = next.at;
        let b = byte_at(text, end);
        if b == b')' {
            return Some((found, Cursor { at: end + 1 }));
        }
        if b != b' ' {
            return None;
        }
        at = end + 1;
    }
}

// pattern / "(" pattern *(SP pattern) ")": the patterns, and what stands after them
pub fn read_patterns(text: &[u8], first: Cursor) -> Option<(Patterns, Cursor)>
    ensures result_value { patterns_is text.now result ≡ up_to_eight (patterns (drop first.at text.now)) }
    ensures placed { PlacedIn text.now result }
{
    let at = first.at;
    if byte_at(text, at) == b'(' {
        return read_parted(text, Cursor { at: at + 1 });
    }
    let (span, next) = first.pattern(text)?;
    let none = Patterns::none();
    Some((none.with(span), next))
}
