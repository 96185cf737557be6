// The options of a command: the set with its named members, and the lists in parentheses that name them.

ghost use Rattle.std.specs.Prelude.{◌≡◌, drop};
ghost use Rattle.listing_rules.specs.Options.{lawful_options};
ghost use Rattle.listing_rules.specs.Command.{option, options, selection_part, return_part};
ghost use Rattle.octets.specs.Sets.{contains, union};
ghost use Rattle.command_line.specs.OptionSets.{options_is, member_of};
ghost use Rattle.command_line.specs.OptionSets.{written_is, WrittenIn, marks_of, listed_is, ended, no_list};

use crate::Options;
use command_tokens::{Cursor, Span, raw};
use octets::{byte_at, spells_word};

impl Options {
    pub(crate) const NONE: Options = Options { bits: 0 };

    pub const SUBSCRIBED: Options = Options { bits: 1 };

    pub const REMOTE: Options = Options { bits: 2 };

    pub const RECURSIVEMATCH: Options = Options { bits: 4 };

    pub const SPECIAL_USE: Options = Options { bits: 8 };

    pub const RETURN_SUBSCRIBED: Options = Options { bits: 16 };

    pub const RETURN_CHILDREN: Options = Options { bits: 32 };

    pub const RETURN_SPECIAL_USE: Options = Options { bits: 64 };

    // What is in either.
    pub fn union(self, other: Options) -> Options
        ensures { result.bits ≡ union self.bits other.bits }
    {
        Options {
            bits: self.bits | other.bits,
        }
    }

    // Whether every member of the other is in this one.
    pub fn has(self, member: Options) -> bool
        ensures { result ≡ contains self.bits member.bits }
    {
        self.bits & member.bits == member.bits
    }

    // RECURSIVEMATCH stands only beside SUBSCRIBED or SPECIAL-USE.
    pub(crate) fn lawful(self) -> bool
        ensures { result ≡ lawful_options (options_is self) }
    {
        let criteria = self.has(Options::SUBSCRIBED) | self.has(Options::SPECIAL_USE);
        !(self.has(Options::RECURSIVEMATCH) & !criteria)
    }
}

// The list that an option stands in.
#[derive(Clone, Copy)]
pub(crate) enum Place {
    Selection,
    Return,
}

impl Place {
    // The option that the word names in this list, or none.
    fn member(self, word: &[u8]) -> Options
        ensures { result.bits ≡ member_of self word.now }
    {
        match self {
            Place::Selection if spells_word(word, b"SUBSCRIBED") => Options::SUBSCRIBED,
            Place::Selection if spells_word(word, b"REMOTE") => Options::REMOTE,
            Place::Selection if spells_word(word, b"RECURSIVEMATCH") => Options::RECURSIVEMATCH,
            Place::Selection if spells_word(word, b"SPECIAL-USE") => Options::SPECIAL_USE,
            Place::Return if spells_word(word, b"SUBSCRIBED") => Options::RETURN_SUBSCRIBED,
            Place::Return if spells_word(word, b"CHILDREN") => Options::RETURN_CHILDREN,
            Place::Return if spells_word(word, b"SPECIAL-USE") => Options::RETURN_SPECIAL_USE,
            _ => Options::NONE,
        }
    }
}

// An option as it is written: its word, whether a value stands after it, of which nothing is kept, and the cursor after both.
#[derive(Clone, Copy)]
pub(crate) struct Written {
    word: Span,
    valued: bool,
    behind: Cursor,
}

// A list of options: the set of those it names, whether each is known and has no value, and the cursor after the list.
//
// An Option of the set would be no plainer: the list is read on behind an option that is not known, since 4 comes before 6.
#[derive(Clone, Copy)]
pub(crate) struct Listed {
    pub(crate) set: Options,
    pub(crate) known: bool,
    pub(crate) behind: Cursor,
}

impl Listed {
    // No list of options: nothing is named, and nothing is unknown.
    fn none(behind: Cursor) -> Listed
        ensures { result ≡ no_list behind }
    {
        Listed {
            set: Options::NONE,
            known: true,
            behind,
        }
    }
}

// option = atom [SP "(" value]
fn read_option(text: &[u8], here: Cursor) -> Option<Written>
    ensures result_value { written_is text.now result ≡ option (drop here.at text.now) }
    ensures written_in { WrittenIn text.now here.at result }
{
    let (word, next) = here.atom(text)?;
    let Some(inside) = next.opening(text) else {
        return Some(Written {
            word,
            valued: false,
            behind: next,
        });
    };
    Some(Written {
        word,
        valued: true,
        behind: inside.value(text)?,
    })
}

// [option *(SP option)] ")", after the opening parenthesis
fn read_options(text: &[u8], first: Cursor, place: Place) -> Option<Listed>
    ensures { listed_is text.now result ≡ marks_of place (options (drop first.at text.now)) }
{
    let mut at = first.at;
    if byte_at(text, at) == b')' {
        return Some(Listed::none(Cursor { at: at + 1 }));
    }
    let mut set = Options::NONE;
    let mut known = true;

    // A `for` would be no plainer: the place goes on by what each option takes of the line.
    loop {
        let here = Cursor { at };
        let option = read_option(text, here)?;
        let member = place.member(raw(text, option.word));
        set = set.union(member);
        known = known & !option.valued & (member.bits != 0);
        let end = option.behind.at;
        let b = byte_at(text, end);
        if b == b')' {
            return Some(Listed {
                set,
                known,
                behind: Cursor { at: end + 1 },
            });
        }
        if b != b' ' {
            return None;
        }
        at = end + 1;
    }
}

// selection = [SP "(" options]
pub(crate) fn read_selection(text: &[u8], here: Cursor) -> Option<Listed>
    ensures { listed_is text.now result ≡ marks_of Place.Selection (selection_part (drop here.at text.now)) }
{
    let Some(inside) = here.opening(text) else {
        return Some(Listed::none(here));
    };
    read_options(text, inside, Place::Selection)
}

// return = [SP "RETURN" SP "(" options], and the end of the line
pub(crate) fn read_returns(text: &[u8], here: Cursor) -> Option<Listed>
    ensures { listed_is text.now result ≡ marks_of Place.Return (ended (return_part (drop here.at text.now))) }
{
    if text.len() <= here.at {
        return Some(Listed::none(here));
    }
    let next = here.space(text)?;
    let (word, rest) = next.atom(text)?;
    if !spells_word(raw(text, word), b"RETURN") {
        return None;
    }
    let inside = rest.opening(text)?;
    let list = read_options(text, inside, Place::Return)?;
    if list.behind.at < text.len() {
        return None;
    }
    Some(list)
}
