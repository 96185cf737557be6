// The command line of document 01, read from left to right, one byte at a time: `read_command` gives the command or its refusal, 3
// to 8; of a command that was read, `put_patterns` gives the canonical patterns, and `put_name` the name of an edit.
//
// A command holds no bytes of its own: its tag, its reference or name and its patterns are spans of the line. `meaning` of specs/ says
// what a command is in the terms of document 01. Absent: words other than LIST, NAMESPACE, LSUB, SUBSCRIBE and UNSUBSCRIBE.
#![tactic(auto)]

ghost use Rattle.std.specs.Prelude.{◌≡◌, IfOk};
ghost use Rattle.listing_rules.specs.Command.{parsed};
ghost use Rattle.octets.specs.Put.{Put};
ghost use Rattle.command_line.specs.Commands.{meaning, Inside, patterns_of, packed_bytes, name_of};

mod edit_command;
mod list_command;
mod lsub_command;
mod option_list;
mod reading;

pub use command_patterns::Patterns;
use command_shape::is_one_command;
pub use command_tokens::Span;
use command_tokens::put_span;
use octets::Refusal;
use reading::read_text;

// The options of a command: a set of bits, one for each named member.
#[derive(Clone, Copy)]
pub struct Options {
    pub bits: u8,
}

// What a command asks for.
#[derive(Clone, Copy)]
pub enum Kind {
    List,
    Root,
    Namespace,
    Lsub,
    Subscribe,
    Unsubscribe,
}

// A command that was read: its tag, its options, its reference and its patterns, eight at most. Of an edit, SUBSCRIBE or UNSUBSCRIBE,
// the mailbox name stands in the place of the reference.
#[derive(Clone, Copy)]
pub struct Command {
    pub kind: Kind,
    pub tag: Span,
    pub options: Options,
    pub reference: Span,
    pub patterns: Patterns,
}

// The command, or its refusal: the line's shape 3, the tag 4, another word 5, the rest off the grammar 4, an option that is not known 6,
// RECURSIVEMATCH with neither SUBSCRIBED nor SPECIAL-USE 7, too many or too long patterns 8, in this order.
//
// What the kind does not use is empty. Left free is which part of the line a span of the reference, of the name or of a pattern is; it
// lies inside, and means the bytes that `meaning` says.
pub fn read_command(line: &[u8]) -> Result<Command, Refusal>
    ensures result_value { meaning line.now result ≡ parsed line.now }
    ensures inside { IfOk result (λ c. Inside line.now c) }
{
    if !is_one_command(line) {
        return Err(Refusal::LineShape);
    }
    let n = line.len() - 2;
    read_text(&line[..n])
}

// The canonical patterns of a command of this line, each as a length byte and its bytes, from the buffer's first place on; the answer
// is the place after them. An empty pattern has no canonical form.
pub fn put_patterns(line: &[u8], command: Command, buf: &mut [u8]) -> usize
    ensures { Put buf.old buf.new 0 (packed_bytes (patterns_of line.now command)) result }
{
    command_patterns::put_patterns(line, command.reference, command.patterns, buf)
}

// The name of an edit of this line, without its quotes and escapes, from the buffer's first place on; the answer is the place after it.
pub fn put_name(line: &[u8], command: Command, buf: &mut [u8]) -> usize
    ensures { Put buf.old buf.new 0 (name_of line.now command) result }
{
    put_span(buf, 0, line, command.reference)
}
