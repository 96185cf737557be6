// The marks of the rows: what the answer asks of a row more than once is found once, and kept in the row's word.
ghost use Rattle.std.specs.Prelude.{◌≡◌, ◌&&◌, map, leb, length};
ghost use Rattle.listing_rules.specs.Match.{matches_any};
ghost use Rattle.command_line.specs.OptionSets.{options_is};
ghost use Rattle.mailbox_table.specs.Below.{marks_of};
ghost use Rattle.mailbox_table.specs.Index.{row_at_word};
ghost use Rattle.pattern.specs.Packed.{unpacked};
ghost use Rattle.pattern.specs.Chosen.{chosen};
ghost use Rattle.list_answer.specs.Marks.{row_marks, marked_word};
ghost use Rattle.list_answer.specs.Ready.{Knows};

use super::members::with;
use super::question::Question;
use mailbox_table::rows::{Row, name_of};
use mailbox_table::scan::{marks_of, with_marks};
use octets::Members;
use pattern::matches_any;

// A set with named members, bit by bit as `row_marks` of specs/ numbers them.
#[derive(Clone, Copy)]
pub(crate) struct Marks {
    pub(crate) bits: u16,
}

impl Members for Marks {
    ghost number = { λ s. s.bits };

    ghost width = { 16 };

    fn number(self) -> u16 {
        self.bits
    }

    fn of_number(n: u16) -> Marks {
        Marks { bits: n }
    }
}

impl Marks {
    pub(crate) const NONE: Marks = Marks { bits: 0 };

    // The row meets the criteria.
    pub(crate) const MEETING: Marks = Marks { bits: 1 };

    // It meets them and matches no pattern, under RECURSIVEMATCH.
    pub(crate) const UNMATCHED: Marks = Marks { bits: 2 };

    // It makes a name above it one with children.
    pub(crate) const CHILD: Marks = Marks { bits: 4 };

    // Its whole name matches a pattern that counts for it.
    pub(crate) const MATCHED: Marks = Marks { bits: 8 };

    // The marks in the word of a row.
    pub(crate) fn of_word(word: u64) -> Marks
        ensures { result.bits ≡ marks_of word }
    {
        Marks {
            bits: marks_of(word),
        }
    }
}

// Whether it is asked, and the name matches a pattern that counts.
fn asked_match(asked: bool, patterns: &[u8], levels: bool, name: &[u8]) -> bool
    ensures { result ≡ (asked && (leb (length name.now) 255
        && matches_any (chosen levels (unpacked patterns.now)) name.now)) }
{
    if !asked {
        return false;
    }
    matches_any(patterns, levels, name)
}

// What the row of a word is marked with. A row that can be listed neither by its own right nor as a level is not matched.
fn marks_for(area: &[u8], word: u64, patterns: &[u8], question: Question) -> Marks
    requires { Knows patterns.now question }
    ensures { result.bits ≡ row_marks (options_is question.options) (unpacked patterns.now)
        (row_at_word area.now word) }
{
    let row = Row::of_word(word);
    let meeting = question.is_met(row.flags);
    let recursive = question.is_recursive();
    let level = question.asks_level(row.flags);
    let asked = meeting | recursive | level;
    let matched = asked_match(asked, patterns, level, name_of(area, row));
    let mut set = with(Marks::NONE, meeting, Marks::MEETING);
    set = with(set, recursive & meeting & !matched, Marks::UNMATCHED);
    set = with(set, question.counts_child(row.flags), Marks::CHILD);
    with(set, matched, Marks::MATCHED)
}

// The words of the rows get their marks.
pub(crate) fn mark_rows(area: &[u8], words: &mut [u64], patterns: &[u8], question: Question)
    requires { Knows patterns.now question }
    ensures { words.new ≡ map (marked_word area.now patterns.now question) words.old }
{
    for word in words.iter_mut() {
        let marks = marks_for(area, *word, patterns, question);
        *word = with_marks(*word, marks.bits);
    }
}
