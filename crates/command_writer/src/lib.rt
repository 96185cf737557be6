// The line of a joined LIST command: `join` writes it from its parts, for a collector that sends one request for two.
//
// The parts are a tag, a set of options by its number, a reference, and patterns packed one after the other, each as a length byte and
// its bytes. `join` takes any bytes and any number: the text is defined for them too, so it is measured first, and what no server would
// accept is refused by the server's numbers, in the server's order. Absent: a RETURN list without a word, and an option of another name.
#![tactic(auto)]

mod options;
mod patterns;
mod strings;
mod words;

ghost use Rattle.std.specs.Prelude.{◌≡◌, ◌&&◌, not};
ghost use Rattle.listing_rules.specs.Bytes.{all, is_empty};
ghost use Rattle.listing_rules.specs.Lists.{every};
ghost use Rattle.listing_rules.specs.Tokens.{tag_byte};
ghost use Rattle.listing_rules.specs.Joining.{can_stand, joined_line, joined_text, options_from, packed_patterns, patterns_fill};
ghost use Rattle.octets.specs.Put.{Put};
ghost use Rattle.octets.specs.Written.{Gives};

use octets::{Refusal, put, put_all};
use options::Options;
use patterns::{few_patterns, patterns_fill, patterns_stand, put_patterns};
use strings::{can_stand, is_tag, put_string};
use words::{put_return, put_selection};

// A line has at most 2,048 bytes, those of its literals included.
const MAX_LINE: usize = 2048;

// The joined command at the front of the buffer. Refused, in this order: 3 where no line holds it, 4 for what is no tag or no such list
// of patterns, 6 for what is no set of options, 7 for RECURSIVEMATCH with neither SUBSCRIBED nor SPECIAL-USE, 8 for more than eight
// patterns or a canonical pattern that is too long, 9 for a short buffer. A refusal changes no byte, and the bytes after the line stay.
pub fn join(
    tag: &[u8],
    options: u8,
    reference: &[u8],
    patterns: &[u8],
    out: &mut [u8],
) -> Result<usize, Refusal>
    ensures { Gives (joined_line tag.now options reference.now patterns.now) out.old out.new result }
{
    let set = Options { bits: options };
    let mut none = [0u8; 0];
    let need = put_join(&mut none, 0, tag, set, reference, patterns);
    if MAX_LINE < need {
        return Err(Refusal::LineShape);
    }
    if !all_stand(reference, patterns) {
        return Err(Refusal::LineShape);
    }
    if !is_grammatical(tag, patterns) {
        return Err(Refusal::Grammar);
    }
    if !set.is_known() {
        return Err(Refusal::UnknownOption);
    }
    if !set.is_lawful() {
        return Err(Refusal::RecursivematchAlone);
    }
    if !few_patterns(reference, patterns) {
        return Err(Refusal::Patterns);
    }
    if out.len() < need {
        return Err(Refusal::ShortBuffer);
    }
    Ok(put_join(out, 0, tag, set, reference, patterns))
}

// Whether a line can hold the reference and every pattern.
fn all_stand(reference: &[u8], patterns: &[u8]) -> bool
    ensures { result ≡ (can_stand reference.now && every can_stand (packed_patterns patterns.now)) }
{
    can_stand(reference) & patterns_stand(patterns)
}

// Whether the tag is one, and the patterns are a list of at least one that fills its bytes.
fn is_grammatical(tag: &[u8], patterns: &[u8]) -> bool
    ensures { result ≡ (not (is_empty tag.now) && all tag_byte tag.now && not (is_empty patterns.now)
        && patterns_fill 0 patterns.now) }
{
    is_tag(tag) & !patterns.is_empty() & patterns_fill(patterns)
}

// The text of the command. Each local is the place after what it names.
fn put_join(
    buf: &mut [u8],
    at: usize,
    tag: &[u8],
    options: Options,
    reference: &[u8],
    patterns: &[u8],
) -> usize
    ensures { Put buf.old buf.new at
        (joined_text tag.now (options_from options.bits) reference.now (packed_patterns patterns.now)) result }
{
    let tagged = put_all(buf, at, tag);
    let word = put_all(buf, tagged, b" LIST (");
    let selection = put_selection(buf, word, options);
    let closed = put_all(buf, selection, b") ");
    let base = put_string(buf, closed, reference);
    let open = put_all(buf, base, b" (");
    let listed = put_patterns(buf, open, patterns);
    let shut = put(buf, listed, b')');
    let returned = put_return(buf, shut, options);
    put_all(buf, returned, b"\r\n")
}
