// The text of a line: the tag, the word, and what the word asks for.

ghost use Rattle.std.specs.Prelude.{◌≡◌, drop};
ghost use Rattle.listing_rules.specs.Command.{tagged};
ghost use Rattle.command_tokens.specs.Spans.{span_bytes};
ghost use Rattle.command_line.specs.Commands.{named_command, bare_command, TagIn, Answers};
ghost use Rattle.command_line.specs.Words.{word_of, worded_as};

use crate::edit_command::read_edit;
use crate::list_command::read_list;
use crate::lsub_command::read_lsub;
use crate::{Command, Kind, Options};
use command_patterns::Patterns;
use command_tokens::{Cursor, Span, raw};
use octets::{Refusal, spells_word};

// The words that a command may begin with.
#[derive(Clone, Copy)]
pub(crate) enum Word {
    List,
    Namespace,
    Lsub,
    Subscribe,
    Unsubscribe,
    Other,
}

// LIST, NAMESPACE, LSUB, SUBSCRIBE or UNSUBSCRIBE "in any case"; `From` would be no plainer, as one word stands for all others.
fn word_of(name: &[u8]) -> Word
    ensures { result ≡ word_of name.now }
{
    match name {
        _ if spells_word(name, b"LIST") => Word::List,
        _ if spells_word(name, b"NAMESPACE") => Word::Namespace,
        _ if spells_word(name, b"LSUB") => Word::Lsub,
        _ if spells_word(name, b"SUBSCRIBE") => Word::Subscribe,
        _ if spells_word(name, b"UNSUBSCRIBE") => Word::Unsubscribe,
        _ => Word::Other,
    }
}

// command = tag SP word, and what the word asks for
pub(crate) fn read_text(text: &[u8]) -> Result<Command, Refusal>
    ensures { Answers text.now (tagged text.now) Unit result }
{
    let start = Cursor { at: 0 };
    let (tag, second) = start.tag(text).ok_or(Refusal::Grammar)?;
    let third = second.space(text).ok_or(Refusal::Grammar)?;
    let (word, rest) = third.atom(text).ok_or(Refusal::Word)?;
    match word_of(raw(text, word)) {
        Word::List => read_list(text, tag, rest),
        Word::Namespace => read_namespace(text, tag, rest),
        Word::Lsub => read_lsub(text, tag, rest),
        Word::Subscribe => read_edit(text, Kind::Subscribe, tag, rest),
        Word::Unsubscribe => read_edit(text, Kind::Unsubscribe, tag, rest),
        Word::Other => Err(Refusal::Word),
    }
}

// "NAMESPACE ends there."
fn read_namespace(text: &[u8], tag: Span, rest: Cursor) -> Result<Command, Refusal>
    ensures { Answers text.now
        (worded_as Word.Namespace (span_bytes text.now tag) (drop rest.at text.now)) (TagIn text.now tag) result }
{
    if rest.at < text.len() {
        return Err(Refusal::Grammar);
    }
    Ok(bare(Kind::Namespace, tag))
}

// A command of which its kind, its tag and a name are kept.
pub(crate) fn named(kind: Kind, tag: Span, name: Span) -> Command
    ensures { result ≡ named_command kind tag name }
{
    Command {
        kind,
        tag,
        options: Options::NONE,
        reference: name,
        patterns: Patterns::none(),
    }
}

// A command of which nothing but its kind and its tag is kept.
pub(crate) fn bare(kind: Kind, tag: Span) -> Command
    ensures { result ≡ bare_command kind tag }
{
    named(kind, tag, Span::NOWHERE)
}
