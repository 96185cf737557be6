// What stands after the word LIST, and the refusals 6, 7 and 8.

ghost use Rattle.std.specs.Prelude.{◌≡◌, drop};
ghost use Rattle.command_tokens.specs.Spans.{span_bytes};
ghost use Rattle.command_line.specs.Commands.{arguments_is, decided, extended_at, TagIn, Given, Answers};
ghost use Rattle.command_line.specs.Words.{worded_as};
ghost use Rattle.command_line.specs.declared.reading.Word.TheVariants.{List as ListWord};

use crate::option_list::{read_returns, read_selection};
use crate::reading::bare;
use crate::{Command, Kind, Options};
use command_patterns::{MAX_PATTERNS, Patterns, measure, read_patterns};
use command_tokens::{Cursor, Span};
use octets::{Refusal, byte_at};

// What is kept of the words after LIST: whether each option is known, as in a list of them, the options, and whether the command is
// extended, which is told by the form of the line and by none of the other values.
#[derive(Clone, Copy)]
pub(crate) struct Arguments {
    known: bool,
    options: Options,
    extended: bool,
    reference: Span,
    patterns: Patterns,
}

// list = "LIST" [selection] SP astring SP patterns [return], after the word
pub(crate) fn read_list(text: &[u8], tag: Span, first: Cursor) -> Result<Command, Refusal>
    ensures { Answers text.now
        (worded_as ListWord (span_bytes text.now tag) (drop first.at text.now)) (TagIn text.now tag) result }
{
    let selection = read_selection(text, first).ok_or(Refusal::Grammar)?;
    let (reference, third) = selection.behind.argument(text).ok_or(Refusal::Grammar)?;
    let fourth = third.space(text).ok_or(Refusal::Grammar)?;
    let (patterns, fifth) = read_patterns(text, fourth).ok_or(Refusal::Grammar)?;
    let returns = read_returns(text, fifth).ok_or(Refusal::Grammar)?;
    let a = Arguments {
        known: selection.known & returns.known,
        options: selection.set.union(returns.set),
        extended: is_extended(text, first, fourth, fifth),
        reference,
        patterns,
    };
    judge(text, tag, a)
}

// Whether the command is extended: a selection list at first, parentheses around the patterns, or RETURN after them.
fn is_extended(text: &[u8], first: Cursor, patterns: Cursor, rest: Cursor) -> bool
    ensures { result ≡ extended_at text.now first.at patterns.at rest.at }
{
    if let Some(_) = first.opening(text) {
        return true;
    }
    (byte_at(text, patterns.at) == b'(') | (rest.at < text.len())
}

// 6, then 7, then 8; then the root line or the list.
fn judge(text: &[u8], tag: Span, a: Arguments) -> Result<Command, Refusal>
    ensures { Answers text.now
        (decided (span_bytes text.now tag) (arguments_is text.now a)) (Given text.now tag a) result }
{
    if !a.known {
        return Err(Refusal::UnknownOption);
    }
    let options = a.options;
    if !options.lawful() {
        return Err(Refusal::RecursivematchAlone);
    }
    let patterns = a.patterns;
    let count = patterns.count;
    if MAX_PATTERNS < count {
        return Err(Refusal::Patterns);
    }
    let reference = a.reference;
    let size = measure(text, reference, patterns);
    if !size.fit {
        return Err(Refusal::Patterns);
    }
    if !a.extended & (size.count == 0) {
        return Ok(bare(Kind::Root, tag));
    }
    Ok(Command {
        kind: Kind::List,
        tag,
        options,
        reference,
        patterns,
    })
}
