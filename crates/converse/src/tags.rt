// The tag of a line.

ghost use Rattle.std.specs.Prelude.{◌≡◌, IfSome, IfNone};
ghost use Rattle.octets.specs.Put.{Put};
ghost use Rattle.conversation.specs.Texts.{no_tag};
ghost use Rattle.conversation.specs.Conversation.{tag_of};

use command_tokens::{Cursor, raw};
use octets::{put, put_all};

// The lawful tag at the front of the line, if there is one: a run of tag bytes with a space or the end of the line after it.
pub(crate) fn lawful_tag(line: &[u8]) -> Option<&[u8]>
    ensures found { IfSome result (λ tag. tag_of line.now ≡ tag.now) }
    ensures missing { IfNone result (tag_of line.now ≡ no_tag) }
{
    let front = Cursor { at: 0 };
    let (tag, rest) = front.tag(line)?;
    let behind = &line[rest.at..];
    if behind.starts_with(b" ") | behind.starts_with(b"\r\n") {
        return Some(raw(line, tag));
    }
    None
}

// "the tag of the line", or `*`.
pub(crate) fn put_tag(buf: &mut [u8], at: usize, line: &[u8]) -> usize
    ensures { Put buf.old buf.new at (tag_of line.now) result }
{
    match lawful_tag(line) {
        Some(tag) => put_all(buf, at, tag),
        None => put(buf, at, b'*'),
    }
}
