// What a command asks of every name. Whatever a request adds to it by value is a field here.
ghost use Rattle.std.specs.Prelude.{◌≡◌, ◌&&◌, ◌||◌, not, leb, length};
ghost use Rattle.listing_rules.specs.Flags.{exists, remote};
ghost use Rattle.listing_rules.specs.Listing.{meets_criteria, unselective};
ghost use Rattle.command_line.specs.OptionSets.{options_is};
ghost use Rattle.pattern.specs.Packed.{unpacked};
ghost use Rattle.list_answer.specs.Ready.{Asks, AsksLsub, lsub_set};

use command_line::Options;
use list_line::LineWord;
use mailbox_table::flags::Flags;
use octets::{Members, byte_at};
use pattern::some_level;

// The options; whether the command lists levels, names that do not exist above those that meet the criteria; and the word of its lines.
#[derive(Clone, Copy)]
pub(crate) struct Question {
    pub(crate) options: Options,
    pub(crate) levels: bool,
    pub(crate) word: LineWord,
}

impl Question {
    // The question of a LIST command with these options and these packed patterns.
    pub(crate) fn of(options: Options, patterns: &[u8]) -> Question
        ensures { Asks patterns.now options result }
    {
        Question {
            options,
            levels: is_unselective(options) & some_level(patterns),
            word: LineWord::List,
        }
    }

    // The question of an LSUB command with these packed patterns. It lists what LIST (SUBSCRIBED REMOTE) does for one pattern, and,
    // where that ends in "%", what RECURSIVEMATCH adds: what matches above a subscribed name that does not.
    pub(crate) fn lsub(patterns: &[u8]) -> Question
        ensures { AsksLsub patterns.now result }
    {
        Question {
            options: lsub_options(some_level(patterns)),
            levels: false,
            word: LineWord::Lsub,
        }
    }

    // Whether RECURSIVEMATCH is selected.
    pub(crate) fn is_recursive(self) -> bool
        ensures { result ≡ (options_is self.options).sel_recursive }
    {
        self.options.has(Options::RECURSIVEMATCH)
    }

    // Whether a subscribed name shows it.
    pub(crate) fn shows_subscribed(self) -> bool
        ensures { result ≡ ((options_is self.options).sel_subscribed || (options_is self.options).ret_subscribed) }
    {
        self.options.has(Options::SUBSCRIBED) | self.options.has(Options::RETURN_SUBSCRIBED)
    }

    // Whether a name shows its special uses.
    pub(crate) fn shows_uses(self) -> bool
        ensures { result ≡ ((options_is self.options).sel_special || (options_is self.options).ret_special) }
    {
        self.options.has(Options::SPECIAL_USE) | self.options.has(Options::RETURN_SPECIAL_USE)
    }

    // Whether a name shows that it has children, or has none.
    pub(crate) fn shows_children(self) -> bool
        ensures { result ≡ (options_is self.options).ret_children }
    {
        self.options.has(Options::RETURN_CHILDREN)
    }

    // Whether a row with these flags meets the criteria.
    pub(crate) fn is_met(self, flags: Flags) -> bool
        ensures { result ≡ meets_criteria (options_is self.options) flags.bits }
    {
        let subscribed = self.options.has(Options::SUBSCRIBED);
        let there = flags.has(Flags::EXISTS) | subscribed;
        let near = !flags.has(Flags::REMOTE) | self.options.has(Options::REMOTE);
        let wanted = !subscribed | flags.has(Flags::SUBSCRIBED);
        let special = !self.options.has(Options::SPECIAL_USE) | flags.has_use();
        there & near & wanted & special
    }

    // Whether a row with these flags makes a name above it one with children.
    pub(crate) fn counts_child(self, flags: Flags) -> bool
        ensures { result ≡ (exists flags.bits && (not (remote flags.bits) || (options_is self.options).sel_remote)) }
    {
        flags.has(Flags::EXISTS) & (!flags.has(Flags::REMOTE) | self.options.has(Options::REMOTE))
    }

    // Whether a name with these flags can be listed as a level alone.
    pub(crate) fn asks_level(self, flags: Flags) -> bool
        ensures { result ≡ (self.levels && not (exists flags.bits)) }
    {
        self.levels & !flags.has(Flags::EXISTS)
    }
}

// SUBSCRIBED and REMOTE, and RECURSIVEMATCH where it is asked.
fn lsub_options(recursive: bool) -> Options
    ensures { result.bits ≡ lsub_set recursive }
{
    let subscribed = Options::SUBSCRIBED.union(Options::REMOTE);
    if recursive {
        return subscribed.union(Options::RECURSIVEMATCH);
    }
    subscribed
}

// Whether neither RECURSIVEMATCH, SUBSCRIBED nor SPECIAL-USE is selected.
fn is_unselective(options: Options) -> bool
    ensures { result ≡ unselective (options_is options) }
{
    !options.has(Options::RECURSIVEMATCH)
        & !options.has(Options::SUBSCRIBED)
        & !options.has(Options::SPECIAL_USE)
}

// Whether the packed patterns are one at most: what comes after the bytes of the first begins a second.
pub(crate) fn is_one_at_most(patterns: &[u8]) -> bool
    ensures { result ≡ leb (length (unpacked patterns.now)) 1 }
{
    patterns.len() <= 1 + usize::from(byte_at(patterns, 0))
}
