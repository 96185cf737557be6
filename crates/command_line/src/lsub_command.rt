// What stands after the word LSUB, and the refusal 8. It has one pattern, and neither options nor a root line.

ghost use Rattle.std.specs.Prelude.{◌≡◌, drop};
ghost use Rattle.command_tokens.specs.Spans.{span_bytes};
ghost use Rattle.command_line.specs.Commands.{TagIn, Answers};
ghost use Rattle.command_line.specs.Words.{worded_as};
ghost use Rattle.command_line.specs.declared.reading.Word.TheVariants.{Lsub as LsubWord};

use crate::{Command, Kind, Options};
use command_patterns::{Patterns, measure};
use command_tokens::{Cursor, Span};
use octets::Refusal;

// lsub = "LSUB" SP astring SP pattern, after the word
pub(crate) fn read_lsub(text: &[u8], tag: Span, first: Cursor) -> Result<Command, Refusal>
    ensures { Answers text.now
        (worded_as LsubWord (span_bytes text.now tag) (drop first.at text.now)) (TagIn text.now tag) result }
{
    let (reference, second) = first.argument(text).ok_or(Refusal::Grammar)?;
    let third = second.space(text).ok_or(Refusal::Grammar)?;
    let (pattern, rest) = third.pattern(text).ok_or(Refusal::Grammar)?;
    if rest.at < text.len() {
        return Err(Refusal::Grammar);
    }
    let none = Patterns::none();
    let patterns = none.with(pattern);
    let size = measure(text, reference, patterns);
    if !size.fit {
        return Err(Refusal::Patterns);
    }
    Ok(Command {
        kind: Kind::Lsub,
        tag,
        options: Options::NONE,
        reference,
        patterns,
    })
}
