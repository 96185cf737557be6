// The line reader: one LIST line, read from left to right into its attributes, its name and its criteria.
//
// It takes exactly what the line writer of `list_line` writes; the texts of a line stand there. An LSUB line is refused. Each part has a
// function of its own, which answers the place behind what it read; where a part is missing, the line is refused at once.
#![tactic(auto)]

ghost use Rattle.std.specs.Prelude.{◌≡◌, ◌≤◌, length, replicate};
ghost use Rattle.listing_rules.specs.LineReader.{child_info_read, read_parts, or_bad, read_line};
ghost use Rattle.octets.specs.Refusals.{numbered};
ghost use Rattle.line_reader.specs.Lines.{parts_of, line_is};
ghost use Rattle.line_reader.specs.Parts.{Skips, Chooses, Next, Names, tail_is};

use list_line::{Attributes, Criteria, texts};
use names::lawful_name;
use octets::{BACKSLASH, Members, QUOTE, Refusal, byte_at, same_bytes};

// The bytes of an empty name.
const NO_NAME: [u8; 200] = [0; 200];

// What a line says: its attributes, its name, zero behind its length, and the criteria that its CHILDINFO names. The name has an array
// and its length beside it, since nothing is lent that could hold it and C takes it so.
#[derive(Clone, Copy)]
pub struct Parts {
    pub attributes: Attributes,
    pub name: [u8; 200],
    pub len: usize,
    pub criteria: Criteria,
}

// The attributes read, and the place behind them.
#[derive(Clone, Copy)]
struct Chosen {
    bits: u16,
    at: usize,
}

// What stands next in a quoted name: a byte and the place behind it; or the place behind the last quote.
#[derive(Clone, Copy)]
enum Piece {
    Byte(u8, usize),
    End(usize),
    Missing,
}

// A LIST line with its CR LF. The root line is read as \Noselect with an empty name.
pub fn read_line(line: &[u8]) -> Result<Parts, Refusal>
    ensures { numbered result ≡ line_is (read_line line.now) }
{
    if same_bytes(line, &texts::ROOT_LINE) {
        return Ok(Parts {
            attributes: Attributes::NOSELECT,
            name: NO_NAME,
            len: 0,
            criteria: Criteria::NONE,
        });
    }
    read_parts(line).ok_or(Refusal::NotSuchLine)
}

// A line with a name.
fn read_parts(line: &[u8]) -> Option<Parts>
    ensures { result ≡ parts_of (or_bad (read_parts line.now)) }
{
    let a = skip(line, 0, &texts::LINE_START)?;
    let chosen = read_attributes(line, a);
    let b = skip(line, chosen.at, &texts::NAME_START)?;
    let mut name = NO_NAME;
    let (len, end) = read_name(line, b, &mut name)?;
    let criteria = read_tail(&line[end..])?;
    if !lawful_name(&name[..len]) {
        return None;
    }
    Some(Parts {
        attributes: Attributes { bits: chosen.bits },
        name,
        len,
        criteria,
    })
}

// The place behind a text, if it stands at the given place.
fn skip(line: &[u8], at: usize, text: &[u8]) -> Option<usize>
    requires { at ≤ length line.now }
    ensures { Skips line.now at text.now result }
{
    if line.len() - at < text.len() {
        return None;
    }
    let end = at + text.len();
    if !same_bytes(text, &line[at..end]) {
        return None;
    }
    Some(end)
}

// The sixteen in order: which of them stand here.
fn read_attributes(line: &[u8], from: usize) -> Chosen
    requires { from ≤ length line.now }
    ensures { Chooses line.now from result }
{
    let mut at = from;
    let mut bits: u16 = 0;
    let mut first = true;
    for k in 0..texts::ATTRIBUTE_COUNT {
        let span = texts::name_span(&texts::PLACES, k, first);
        if let Some(next) = skip(line, at, &texts::NAMES[span.start..span.end]) {
            at = next;
            bits += 1 << k;
            first = false;
        }
    }
    Chosen { bits, at }
}

// The next byte of a quoted name, which a backslash before it escapes.
fn next_piece(line: &[u8], i: usize) -> Piece
    ensures { Next line.now i result }
{
    if line.len() <= i {
        return Piece::Missing;
    }
    let b = line[i];
    if b == QUOTE {
        return Piece::End(i + 1);
    }
    if b != BACKSLASH {
        return Piece::Byte(b, i + 1);
    }
    let escaped = byte_at(line, i + 1);
    if (escaped == QUOTE) | (escaped == BACKSLASH) {
        return Piece::Byte(escaped, i + 2);
    }
    Piece::Missing
}

// A quoted name behind its first quote, without its escapes, at the front of `name`, as far as it has room.
fn read_name(line: &[u8], from: usize, name: &mut [u8]) -> Option<(usize, usize)>
    ensures { Names line.now from name.old name.new result }
{
    let mut len = 0;
    let mut i = from;
    // No `for` over the name: a name that fills its room is ended by the piece behind the last byte.
    loop {
        match next_piece(line, i) {
            Piece::Byte(b, next) => {
                if name.len() <= len {
                    return None;
                }
                name[len] = b;
                len += 1;
                i = next;
            }
            Piece::End(next) => {
                return Some((len, next));
            }
            Piece::Missing => {
                return None;
            }
        }
    }
}

// CR LF, with or without CHILDINFO before it, which names one criterion, the other, or both in that order.
fn read_tail(rest: &[u8]) -> Option<Criteria>
    ensures { result ≡ tail_is (child_info_read rest.now) }
{
    if same_bytes(rest, &texts::PLAIN_END) {
        return Some(Criteria::NONE);
    }
    if same_bytes(rest, &texts::SUBSCRIBED_END) {
        return Some(Criteria::SUBSCRIBED);
    }
    if same_bytes(rest, &texts::SPECIAL_USE_END) {
        return Some(Criteria::SPECIAL_USE);
    }
    if same_bytes(rest, &texts::BOTH_END) {
        return Some(Criteria::SUBSCRIBED.union(Criteria::SPECIAL_USE));
    }
    None
}
