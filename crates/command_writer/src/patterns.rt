// Patterns packed one after the other, each as a length byte and its bytes. The last ends with the list at the latest.
ghost use Rattle.std.specs.Prelude.{◌≡◌, ◌&&◌, map, ◌<◌, leb, length};
ghost use Rattle.listing_rules.specs.Lists.{every};
ghost use Rattle.listing_rules.specs.Lines.{spaced};
ghost use Rattle.listing_rules.specs.Command.{canonical};
ghost use Rattle.listing_rules.specs.Joining.{can_stand, packed_patterns, patterns_fill, string_text};
ghost use Rattle.octets.specs.Put.{Put};
ghost use Rattle.command_writer.specs.Patterns.{PatternAt, short, short_after};

use crate::strings::{can_stand, put_string};
use crate::words::put_gap;
use octets::{advance, byte_at, least, wide};

// How many patterns a command has at most, empty ones counted.
const MAX_PATTERNS: usize = 8;

// The bytes that a canonical pattern has at most.
const MAX_CANONICAL: usize = 255;

// A pattern as it lies in a list: from start up to end, and the next one begins at next.
#[derive(Clone, Copy)]
struct Pattern {
    start: usize,
    end: usize,
    next: usize,
}

// The pattern that begins at a place of the list. It ends with the list at the latest.
fn pattern_at(list: &[u8], at: usize) -> Pattern
    requires { at < length list.now }
    ensures { PatternAt list.now at result }
{
    let start = at + 1;
    let next = start + wide(byte_at(list, at));
    Pattern {
        start,
        end: least(next, list.len()),
        next,
    }
}

// Whether the patterns fill the list exactly.
pub(crate) fn patterns_fill(list: &[u8]) -> bool
    ensures { result ≡ patterns_fill 0 list.now }
{
    let mut at = 0;
    while at < list.len() {
        let p = pattern_at(list, at);
        if list.len() < p.next {
            return false;
        }
        at = p.next;
    }
    true
}

// How many patterns the list has.
fn count_patterns(list: &[u8]) -> usize
    ensures { result ≡ length (packed_patterns list.now) }
{
    let mut count: usize = 0;
    let mut at = 0;
    while at < list.len() {
        let p = pattern_at(list, at);
        count += 1;
        at = p.next;
    }
    count
}

// Whether a line can hold every pattern.
pub(crate) fn patterns_stand(list: &[u8]) -> bool
    ensures { result ≡ every can_stand (packed_patterns list.now) }
{
    let mut at = 0;
    while at < list.len() {
        let p = pattern_at(list, at);
        let start = p.start;
        let end = p.end;
        if !can_stand(&list[start..end]) {
            return false;
        }
        at = p.next;
    }
    true
}

// Whether the canonical pattern of one is short enough; an empty pattern has none.
fn is_short(reference: &[u8], pattern: &[u8]) -> bool
    ensures { result ≡ short_after reference.now pattern.now }
{
    pattern.is_empty() | (advance(reference.len(), pattern.len()) <= MAX_CANONICAL)
}

// Whether each canonical pattern is short enough.
fn patterns_short(reference: &[u8], list: &[u8]) -> bool
    ensures { result ≡ every short (canonical reference.now (packed_patterns list.now)) }
{
    let mut at = 0;
    while at < list.len() {
        let p = pattern_at(list, at);
        let start = p.start;
        let end = p.end;
        if !is_short(reference, &list[start..end]) {
            return false;
        }
        at = p.next;
    }
    true
}

// Whether the patterns are few and short enough.
pub(crate) fn few_patterns(reference: &[u8], list: &[u8]) -> bool
    ensures { result ≡ (leb (length (packed_patterns list.now)) 8
        && every short (canonical reference.now (packed_patterns list.now))) }
{
    (count_patterns(list) <= MAX_PATTERNS) & patterns_short(reference, list)
}

// The patterns as strings, with one space between two.
pub(crate) fn put_patterns(buf: &mut [u8], at: usize, list: &[u8]) -> usize
    ensures { Put buf.old buf.new at (spaced (map string_text (packed_patterns list.now))) result }
{
    let mut to = at;
    let mut first = true;
    let mut i = 0;
    while i < list.len() {
        let p = pattern_at(list, i);
        let start = p.start;
        let end = p.end;
        let gap = put_gap(buf, to, first);
        to = put_string(buf, gap, &list[start..end]);
        first = false;
        i = p.next;
    }
    to
}
