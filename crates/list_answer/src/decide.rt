// What the answer shows of one name.
ghost use Rattle.std.specs.Prelude.{◌≡◌, cond, ◌&&◌, ◌<◌, length, take, drop};
ghost use Rattle.listing_rules.specs.Options.{criteria, no_criteria, criteria_number};
ghost use Rattle.command_line.specs.OptionSets.{options_is};
ghost use Rattle.mailbox_table.specs.Below.{Begins};
ghost use Rattle.list_answer.specs.Shown.{found_below, Decided, StandsFor, Matched};

use super::attributes::{attributes_of, lsub_attributes};
use super::marks::Marks;
use super::view::View;
use command_line::Options;
use list_line::{Attributes, Criteria, LineWord};
use mailbox_table::flags::Flags;
use mailbox_table::rows::{Row, name_of};
use mailbox_table::scan::some_below;
use octets::Members;
use pattern::matches_any;

// A name to look at: the first `len` bytes of a row's name.
#[derive(Clone, Copy)]
pub(crate) struct Beginning {
    pub(crate) row: usize,
    pub(crate) len: usize,
}

// How a listed name is shown: the attributes of its line, and the criteria that its CHILDINFO names.
#[derive(Clone, Copy)]
pub(crate) struct Line {
    pub(crate) attributes: Attributes,
    pub(crate) criteria: Criteria,
}

// What the rows say of a name before it is matched: its flags, whether it can be a level, and whether it is listed if it matches.
#[derive(Clone, Copy)]
struct Standing {
    flags: Flags,
    level: bool,
    counts: bool,
}

// Whether the name is listed, and how.
pub(crate) fn decide(view: View, name: Beginning) -> Option<Line>
    requires { name.row < length view.words.now }
    ensures { Decided view.entry.area.now view.entry.words.now view.entry.patterns.now view.entry.question name result }
{
    let standing = look_at(view, name);
    if !standing.counts {
        return None;
    }
    if !is_matched(view, name) {
        return None;
    }
    let question = view.question;
    match question.word {
        LineWord::Lsub => Some(Line {
            attributes: lsub_attributes(standing.flags),
            criteria: Criteria::NONE,
        }),
        LineWord::List => {
            let info = asked_below(question.is_recursive(), view, Marks::MEETING, name);
            let children = asked_below(question.shows_children(), view, Marks::CHILD, name);
            Some(Line {
                attributes: attributes_of(standing.flags, question, children, standing.level),
                criteria: child_info(info, question.options),
            })
        }
    }
}

// What the rows say of the name. The patterns for which they were marked are not looked at again.
fn look_at(view: View, name: Beginning) -> Standing
    requires { name.row < length view.words.now }
    ensures { StandsFor view.entry.area.now view.entry.words.now view.entry.question name result }
{
    let i = name.row;
    let word = view.words[i];
    let row = Row::of_word(word);
    let whole = row.len == name.len;
    let flags = flags_of(whole, row.flags);
    let own = whole & Marks::of_word(word).has(Marks::MEETING);
    let recursive = view.question.is_recursive();
    let deep = asked_below(recursive & !own, view, Marks::UNMATCHED, name);
    let absent = view.question.asks_level(flags);
    let level = asked_below(absent, view, Marks::MEETING, name);
    Standing {
        flags,
        level,
        counts: own | deep | level,
    }
}

// Whether a name that is listed if it matches does match. A row's whole name was matched when it was marked.
fn is_matched(view: View, name: Beginning) -> bool
    requires { name.row < length view.words.now }
    ensures { Matched view.entry.area.now view.entry.words.now view.entry.patterns.now view.entry.question name result }
{
    let i = name.row;
    let len = name.len;
    let word = view.words[i];
    let row = Row::of_word(word);
    if row.len == len {
        return Marks::of_word(word).has(Marks::MATCHED);
    }
    matches_any(
        view.patterns,
        view.question.levels,
        front_of(view.area, row, len),
    )
}

// The first `len` bytes of a row's name, or all of them where it has fewer.
pub(crate) fn front_of(area: &[u8], row: Row, len: usize) -> &[u8]
    ensures { result.now ≡ take len (take row.len (drop row.start area.now)) }
{
    let whole = name_of(area, row);
    let end = len.min(whole.len());
    &whole[..end]
}

// Whether it is asked, and some row below the name has these marks.
fn asked_below(asked: bool, view: View, marks: Marks, name: Beginning) -> bool
    ensures { Begins view.entry.area.now view.entry.words.now name.row name.len →
        result ≡ (asked && found_below view.entry.area.now view.entry.words.now marks.bits name) }
{
    if !asked {
        return false;
    }
    some_below(view.area, view.words, marks.bits, name.row, name.len)
}

// The flags of a name: those of the row where it is the row's whole name, else none.
fn flags_of(whole: bool, flags: Flags) -> Flags
    ensures { result.bits ≡ cond whole flags.bits 0 }
{
    if whole {
        return flags;
    }
    Flags::NONE
}

// The criteria that CHILDINFO names: those selected, where it stands on the line, else none.
fn child_info(info: bool, options: Options) -> Criteria
    ensures { result.bits ≡ criteria_number (cond info (criteria (options_is options)) no_criteria) }
{
    if info {
        return Criteria::of(
            options.has(Options::SUBSCRIBED),
            options.has(Options::SPECIAL_USE),
        );
    }
    Criteria::NONE
}
