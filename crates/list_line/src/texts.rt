// The texts of LIST and LSUB lines.
ghost use Rattle.std.specs.Prelude.{◌≡◌};
ghost use Rattle.list_line.specs.Names.{span_in};

use octets::byte_at;

// How a line begins, for each word.
pub const LINE_START: [u8; 8] = *b"* LIST (";

pub(crate) const LSUB_START: [u8; 8] = *b"* LSUB (";

// Between the attributes and the quoted name, and the same with its first quote.
pub(crate) const DELIMITER: [u8; 6] = *b") \"/\" ";

pub const NAME_START: [u8; 7] = *b") \"/\" \"";

// What stands behind the name, for each set of criteria.
pub const PLAIN_END: [u8; 2] = *b"\r\n";

pub const SUBSCRIBED_END: [u8; 31] = *b" (\"CHILDINFO\" (\"SUBSCRIBED\"))\r\n";

pub const SPECIAL_USE_END: [u8; 32] = *b" (\"CHILDINFO\" (\"SPECIAL-USE\"))\r\n";

pub const BOTH_END: [u8; 45] = *b" (\"CHILDINFO\" (\"SUBSCRIBED\" \"SPECIAL-USE\"))\r\n";

pub const ROOT_LINE: [u8; 27] = *b"* LIST (\\Noselect) \"/\" \"\"\r\n";

pub(crate) const OK_END: [u8; 10] = *b" OK done\r\n";

// How many attributes there are.
pub const ATTRIBUTE_COUNT: usize = 16;

// The attributes' names in document 01's order, each behind a space.
pub static NAMES: [u8; 152] =
    *b" \\Marked \\Unmarked \\Noselect \\NoInferiors \\Remote \\Subscribed \\NonExistent \
     \\All \\Archive \\Drafts \\Flagged \\Junk \\Sent \\Trash \\HasChildren \\HasNoChildren";

// Where the space before each name stands, and the end of the last.
pub static PLACES: [u8; 17] = [
    0, 8, 18, 28, 41, 49, 61, 74, 79, 88, 96, 105, 111, 117, 124, 137, 152,
];

// A part of NAMES.
#[derive(Clone, Copy)]
pub struct Span {
    pub start: usize,
    pub end: usize,
}

// Where attribute k stands in NAMES, by the table PLACES: with the space before it unless it is the first on its line; past the table,
// nowhere.
pub fn name_span(places: &[u8], k: usize, first: bool) -> Span
    ensures { result ≡ span_in places.now k first }
{
    if places.len() <= k {
        return Span { start: 0, end: 0 };
    }
    let start = usize::from(places[k]);
    let end = usize::from(byte_at(places, k + 1));
    if first {
        return Span {
            start: start + 1,
            end,
        };
    }
    Span { start, end }
}
