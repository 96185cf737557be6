// The option words of a command, with one space between two.
ghost use Rattle.std.specs.Prelude.{◌≡◌, ◌&&◌, not, []};
ghost use Rattle.listing_rules.specs.Walk.{when};
ghost use Rattle.listing_rules.specs.LineReader.{separated};
ghost use Rattle.listing_rules.specs.Joining.{options_from, return_text, selection_text};
ghost use Rattle.octets.specs.Put.{Put};
ghost use Rattle.command_writer.specs.Words.{return_words};

use crate::options::Options;
use octets::{Members, put, put_all};

// A list of words that is being written: the place after it, and whether it has no word yet.
#[derive(Clone, Copy)]
struct Words {
    to: usize,
    first: bool,
}

// The space before a word that is not the first.
pub(crate) fn put_gap(buf: &mut [u8], at: usize, first: bool) -> usize
    ensures { Put buf.old buf.new at (separated first []) result }
{
    if first {
        return at;
    }
    put(buf, at, b' ')
}

// A word more, where it is shown.
fn put_word(buf: &mut [u8], list: Words, shown: bool, word: &[u8]) -> Words
    ensures text { Put buf.old buf.new list.to (when shown (separated list.first word.now)) result.to }
    ensures first { result.first ≡ (not shown && list.first) }
{
    if !shown {
        return list;
    }
    let at = put_gap(buf, list.to, list.first);
    Words {
        to: put_all(buf, at, word),
        first: false,
    }
}

// The selection options, in the order in which the collector's walk writes them.
pub(crate) fn put_selection(buf: &mut [u8], at: usize, options: Options) -> usize
    ensures { Put buf.old buf.new at (selection_text (options_from options.bits)) result }
{
    let none = Words {
        to: at,
        first: true,
    };
    let a = put_word(buf, none, options.has(Options::SUBSCRIBED), b"SUBSCRIBED");
    let b = put_word(
        buf,
        a,
        options.has(Options::RECURSIVEMATCH),
        b"RECURSIVEMATCH",
    );
    let c = put_word(buf, b, options.has(Options::SPECIAL_USE), b"SPECIAL-USE");
    let d = put_word(buf, c, options.has(Options::REMOTE), b"REMOTE");
    d.to
}

// The words of the return options.
fn put_return_words(buf: &mut [u8], at: usize, options: Options) -> usize
    ensures { Put buf.old buf.new at (return_words (options_from options.bits)) result }
{
    let none = Words {
        to: at,
        first: true,
    };
    let a = put_word(
        buf,
        none,
        options.has(Options::RETURN_SUBSCRIBED),
        b"SUBSCRIBED",
    );
    let b = put_word(buf, a, options.has(Options::RETURN_CHILDREN), b"CHILDREN");
    let c = put_word(
        buf,
        b,
        options.has(Options::RETURN_SPECIAL_USE),
        b"SPECIAL-USE",
    );
    c.to
}

// The return options: ` RETURN` and their words in parentheses, or nothing where there is none.
pub(crate) fn put_return(buf: &mut [u8], at: usize, options: Options) -> usize
    ensures { Put buf.old buf.new at (return_text (options_from options.bits)) result }
{
    if !options.returns_any() {
        return at;
    }
    let open = put_all(buf, at, b" RETURN (");
    let listed = put_return_words(buf, open, options);
    put(buf, listed, b')')
}
