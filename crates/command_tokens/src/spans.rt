// The bytes that a span of the line stands for: as they stand there, how many they are without escapes, and put without escapes.

ghost use Rattle.std.specs.Prelude.{◌≡◌, false, length};
ghost use Rattle.octets.specs.Put.{Put};
ghost use Rattle.command_tokens.specs.Spans.{plain, raw_bytes, span_bytes};

use crate::Span;
use octets::{BACKSLASH, put, put_all};

// The bytes between the span's places, as they stand in the line; of a span that does not lie inside, what does.
pub fn raw(text: &[u8], span: Span) -> &[u8]
    ensures { result.now ≡ raw_bytes text.now span }
{
    let end = span.end.min(text.len());
    let start = span.start.min(end);
    &text[start..end]
}

// How many bytes a quoted string has without the backslashes that escape.
fn plain_len(s: &[u8]) -> usize
    ensures { result ≡ length (plain false s.now) }
{
    let mut n = 0;
    let mut escaped = false;
    for b in s {
        escaped = !escaped & (*b == BACKSLASH);
        if !escaped {
            n += 1;
        }
    }
    n
}

// How many bytes the span means.
pub fn span_len(text: &[u8], span: Span) -> usize
    ensures { result ≡ length (span_bytes text.now span) }
{
    let bytes = raw(text, span);
    if span.quoted {
        return plain_len(bytes);
    }
    bytes.len()
}

// The bytes of a quoted string, without the backslashes that escape.
fn put_plain(buf: &mut [u8], at: usize, s: &[u8]) -> usize
    ensures { Put buf.old buf.new at (plain false s.now) result }
{
    let mut to = at;
    let mut escaped = false;
    for b in s {
        escaped = !escaped & (*b == BACKSLASH);
        if !escaped {
            to = put(buf, to, *b);
        }
    }
    to
}

// The bytes that the span means.
pub fn put_span(buf: &mut [u8], at: usize, text: &[u8], span: Span) -> usize
    ensures { Put buf.old buf.new at (span_bytes text.now span) result }
{
    let bytes = raw(text, span);
    if span.quoted {
        return put_plain(buf, at, bytes);
    }
    put_all(buf, at, bytes)
}
