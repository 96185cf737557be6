// Canonical patterns: "the reference followed by the pattern, at most 255 bytes after unquoting". An empty pattern has none.

ghost use Rattle.std.specs.Prelude.{◌≡◌, ◌++◌, ◌+◌, ◌%◌, leb};
ghost use Rattle.octets.specs.Put.{Put};
ghost use Rattle.command_tokens.specs.Spans.{span_bytes};
ghost use Rattle.command_patterns.specs.Canonical.{canonical_of, measured_is, packed_one, packed_bytes};

use crate::{Measured, Patterns};
use command_tokens::{Span, put_span, span_len};
use octets::put;

// How long a canonical pattern may be.
const MAX_CANONICAL: usize = 255;

// Whether a reference and a pattern of these lengths make a canonical pattern that is not too long.
fn is_short(head: usize, tail: usize) -> bool
    ensures { result ≡ leb (head + tail) 255 }
{
    head.saturating_add(tail) <= MAX_CANONICAL
}

// How many canonical patterns there are, and whether each is short enough.
pub fn measure(text: &[u8], reference: Span, patterns: Patterns) -> Measured
    ensures { result ≡ measured_is (canonical_of text.now reference patterns) }
{
    let head = span_len(text, reference);
    let mut count = 0;
    let mut fit = true;
    for pattern in patterns.places() {
        let tail = span_len(text, *pattern);
        if tail != 0 {
            fit = fit & is_short(head, tail);
            count += 1;
        }
    }
    Measured { count, fit }
}

// The canonical patterns, each as a length byte and its bytes, from the buffer's first place on; the answer is the place after them.
pub fn put_patterns(line: &[u8], reference: Span, patterns: Patterns, buf: &mut [u8]) -> usize
    ensures { Put buf.old buf.new 0 (packed_bytes (canonical_of line.now reference patterns)) result }
{
    let mut to = 0;
    for pattern in patterns.places() {
        if span_len(line, *pattern) != 0 {
            to = put_canonical(buf, to, line, reference, *pattern);
        }
    }
    to
}

// One canonical pattern: a length byte, the reference and the pattern, without escapes.
fn put_canonical(buf: &mut [u8], at: usize, line: &[u8], reference: Span, pattern: Span) -> usize
    ensures { Put buf.old buf.new at
        (packed_one (span_bytes line.now reference ++ span_bytes line.now pattern)) result }
{
    let head = span_len(line, reference);
    let tail = span_len(line, pattern);
    let first = put(buf, at, length_byte(head, tail));
    let second = put_span(buf, first, line, reference);
    put_span(buf, second, line, pattern)
}

// The sum of two lengths as a byte; what it is over whole 256s where it does not fit.
fn length_byte(head: usize, tail: usize) -> u8
    ensures { result ≡ (head + tail) % 256 }
{
    (head.wrapping_add(tail) % 256) as u8
}
