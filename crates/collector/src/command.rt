// The commands of the walk: one line, made from the options and a reference.
ghost use Rattle.std.specs.Prelude.{◌≡◌, [], ◌∷◌, ◌++◌};
ghost use Rattle.listing_rules.specs.Bytes.{slash};
ghost use Rattle.listing_rules.specs.Walk.{when, command_line};
ghost use Rattle.octets.specs.Put.{Put};
ghost use Rattle.collector.specs.Options.{byte_of};

use super::options::WalkOptions;
use octets::{SLASH, put, put_all, put_quoted};

// Room for a reference, which is a name of at most 255 bytes and "/", and for a command with it, whose quotes may double it.
pub(crate) const REFERENCE_ROOM: usize = 256;

pub(crate) const COMMAND_ROOM: usize = 640;

const START: [u8; 8] = *b"w LIST (";

const SUBSCRIBED: [u8; 11] = *b"SUBSCRIBED ";

const RECURSIVEMATCH: [u8; 14] = *b"RECURSIVEMATCH";

const SPECIAL_USE: [u8; 12] = *b" SPECIAL-USE";

const REMOTE: [u8; 7] = *b" REMOTE";

const SELECTION_END: [u8; 2] = *b") ";

const PATTERN: [u8; 6] = *b" \"%\"\r\n";

// The command with this reference.
pub(crate) fn put_command(buf: &mut [u8], options: WalkOptions, reference: &[u8]) -> usize
    ensures { Put buf.old buf.new 0 (command_line (byte_of options) reference.now) result }
{
    let a = put_all(buf, 0, &START);
    let b = put_when(buf, a, options.subscribed(), &SUBSCRIBED);
    let c = put_all(buf, b, &RECURSIVEMATCH);
    let d = put_when(buf, c, options.special_use(), &SPECIAL_USE);
    let e = put_when(buf, d, options.remote, &REMOTE);
    let f = put_all(buf, e, &SELECTION_END);
    let g = put_quoted(buf, f, reference);
    put_all(buf, g, &PATTERN)
}

// The reference below a name.
pub(crate) fn put_below(buf: &mut [u8], name: &[u8]) -> usize
    ensures { Put buf.old buf.new 0 (name.now ++ (slash ∷ [])) result }
{
    let a = put_all(buf, 0, name);
    put(buf, a, SLASH)
}

// The text, if it is asked for.
fn put_when(buf: &mut [u8], at: usize, asked: bool, text: &[u8]) -> usize
    ensures { Put buf.old buf.new at (when asked text.now) result }
{
    if asked {
        return put_all(buf, at, text);
    }
    at
}
