// The lines of the server's answers, and the line writer.
ghost use Rattle.std.specs.Prelude.{◌≡◌, ◌++◌};
ghost use Rattle.listing_rules.specs.Bytes.{crlf};
ghost use Rattle.listing_rules.specs.Lines.{attribute_names, chosen, spaced, child_info_text, word_line, list_line, root_line, ok_line};
ghost use Rattle.listing_rules.specs.Options.{criteria_of};
ghost use Rattle.listing_rules.specs.LineReader.{root_parts, line_from};
ghost use Rattle.listing_rules.specs.Server.{answered};
ghost use Rattle.octets.specs.Put.{Put};
ghost use Rattle.octets.specs.Written.{Gives};
ghost use Rattle.list_line.specs.Members.{members};
ghost use Rattle.list_line.specs.Words.{start_of};

use super::attributes::Attributes;
use super::criteria::Criteria;
use super::texts;
use super::words::LineWord;
use names::lawful_name;
use octets::{Members, Refusal, put_all, put_quoted};

// A line with this word.
pub fn put_line(
    buf: &mut [u8],
    at: usize,
    word: LineWord,
    attributes: Attributes,
    name: &[u8],
    criteria: Criteria,
) -> usize
    ensures { Put buf.old buf.new at
        (word_line (start_of word) (members attributes.bits) name.now (criteria_of criteria.bits)) result }
{
    let a = put_all(buf, at, &word.start());
    let b = put_attributes(buf, a, attributes.bits);
    let c = put_all(buf, b, &texts::DELIMITER);
    let d = put_quoted(buf, c, name);
    put_line_end(buf, d, criteria)
}

// The root line, which a command with an empty pattern asks for.
#[tactic(auto, unfolding(listing_rules::proofs::Keys::open_bytes, listing_rules::proofs::Keys::open_lines))]
pub fn put_root_line(buf: &mut [u8], at: usize) -> usize
    ensures { Put buf.old buf.new at root_line result }
{
    put_all(buf, at, &texts::ROOT_LINE)
}

// The tagged line that ends every answer.
pub fn put_ok_line(buf: &mut [u8], at: usize, tag: &[u8]) -> usize
    ensures { Put buf.old buf.new at (ok_line tag.now) result }
{
    let a = put_all(buf, at, tag);
    put_all(buf, a, &texts::OK_END)
}

// The line writer: the line of these parts at the front of the buffer. Parts of no line are refused first, among them criteria that
// are not lawful, then a short buffer. A refusal changes no byte, and the bytes after the line stay.
pub fn write_line(
    attributes: Attributes,
    name: &[u8],
    criteria: Criteria,
    buf: &mut [u8],
) -> Result<usize, Refusal>
    ensures { Gives (line_from (members attributes.bits) name.now criteria.bits) buf.old buf.new result }
{
    if !criteria.lawful() {
        return Err(Refusal::NotSuchLine);
    }
    if lawful_name(name) {
        return write_named(attributes, name, criteria, buf);
    }
    if !root_parts(attributes, name, criteria) {
        return Err(Refusal::NotSuchLine);
    }
    write_root(buf)
}

// The names of the attributes in the set, with one space between two.
fn put_attributes(buf: &mut [u8], at: usize, bits: u16) -> usize
    ensures { Put buf.old buf.new at (spaced (chosen (members bits) attribute_names)) result }
{
    let mut to = at;
    let mut first = true;
    for k in 0..texts::ATTRIBUTE_COUNT {
        if (bits >> k) % 2 == 1 {
            let span = texts::name_span(&texts::PLACES, k, first);
            to = put_all(buf, to, &texts::NAMES[span.start..span.end]);
            first = false;
        }
    }
    to
}

// What stands behind the name.
fn put_line_end(buf: &mut [u8], at: usize, criteria: Criteria) -> usize
    ensures { Put buf.old buf.new at (child_info_text (criteria_of criteria.bits) ++ crlf) result }
{
    let subscribed = criteria.has(Criteria::SUBSCRIBED);
    let special = criteria.has(Criteria::SPECIAL_USE);
    match (subscribed, special) {
        (true, true) => put_all(buf, at, &texts::BOTH_END),
        (true, false) => put_all(buf, at, &texts::SUBSCRIBED_END),
        (false, true) => put_all(buf, at, &texts::SPECIAL_USE_END),
        (false, false) => put_all(buf, at, &texts::PLAIN_END),
    }
}

// Whether the parts are those of the root line.
fn root_parts(attributes: Attributes, name: &[u8], criteria: Criteria) -> bool
    ensures { result ≡ root_parts (members attributes.bits) name.now (criteria_of criteria.bits) }
{
    (attributes == Attributes::NOSELECT) & name.is_empty() & criteria.is_none()
}

// A line of a lawful name at the front, if there is room.
fn write_named(
    attributes: Attributes,
    name: &[u8],
    criteria: Criteria,
    buf: &mut [u8],
) -> Result<usize, Refusal>
    ensures { Gives (answered (list_line (members attributes.bits) name.now (criteria_of criteria.bits))) buf.old buf.new result }
{
    let mut none = [0u8; 0];
    let need = put_line(&mut none, 0, LineWord::List, attributes, name, criteria);
    if buf.len() < need {
        return Err(Refusal::ShortBuffer);
    }
    Ok(put_line(buf, 0, LineWord::List, attributes, name, criteria))
}

// The root line at the front, if there is room.
fn write_root(buf: &mut [u8]) -> Result<usize, Refusal>
    ensures { Gives (answered root_line) buf.old buf.new result }
{
    if buf.len() < texts::ROOT_LINE.len() {
        return Err(Refusal::ShortBuffer);
    }
    Ok(put_root_line(buf, 0))
}
