// The steps of a match where there is nothing to go back to. Each looks at one place of the pattern and one of the name, takes the state
// by value and adds one to its count; it has no loop and calls itself nowhere.
//
// The first looks at the last places of both: a byte of the pattern that stands for itself must be the name's. The others begin at place 0
// of both, and lead to the next place of both as long as the pattern's bytes stand for themselves and are the name's.
ghost use Rattle.std.specs.Prelude.{◌≡◌, ◌-◌, ◌≤◌, ◌<◌, length, get_or};
ghost use Rattle.pattern.specs.Folded.{letter_of};
ghost use Rattle.pattern.specs.Steps.{led_is, ends_looked, ends_is, front_at, front_is, front_ends, is_over, is_match, wildcard_of, step_is, capped_at, capped_front};

use crate::letter;
use crate::steps::{Counted, Kind, one_more};
use octets::SLASH;

// Where the last step led: to the same place of both; after a "%" or a "*" that stands at this place; to the end.
#[derive(Clone, Copy)]
pub(crate) enum Next {
    Front,
    Level,
    Any,
    Matched,
    Missed,
}

// The place of both, and the steps so far.
#[derive(Clone, Copy)]
pub(crate) struct Front {
    pub i: usize,
    pub steps: usize,
    pub next: Next,
}

// The first step, at the last places. Where one of both is empty there is no such step.
pub(crate) fn first_step(pattern: &[u8], name: &[u8], fold: bool) -> Front
    ensures { result ≡ ends_is fold pattern.now name.now }
{
    if pattern.len() == 0 {
        return Front::FIRST;
    }
    if name.len() == 0 {
        return Front::FIRST;
    }
    look_at_ends(pattern, name, fold, Front::FIRST)
}

// One step, at the last places of both.
fn look_at_ends(pattern: &[u8], name: &[u8], fold: bool, at: Front) -> Front
    requires pattern_nonzero { 0 < length pattern.now }
    requires name_nonzero { 0 < length name.now }
    ensures { result ≡ capped_front (ends_looked (letter_of fold (get_or pattern.now (length pattern.now - 1) 0))
        (get_or name.now (length name.now - 1) 0) at) }
{
    let c = letter(pattern[pattern.len() - 1], fold);
    let wildcard = (c == b'*') | (c == b'%');
    if (c != name[name.len() - 1]) & !wildcard {
        return at.leads(at.i, Next::Missed);
    }
    at.leads(at.i, Next::Front)
}

// One step at the front, at the same place of both.
pub(crate) fn front_step(pattern: &[u8], name: &[u8], fold: bool, at: Front) -> Front
    requires i_in_bounds { at.i ≤ length pattern.now }
    requires i_in_bounds_2 { at.i ≤ length name.now }
    ensures { front_is result ≡ capped_at (step_is fold pattern.now name.now (front_at at.i at.steps)) }
{
    let i = at.i;
    if i == pattern.len() {
        if i == name.len() {
            return at.leads(i, Next::Matched);
        }
        return at.leads(i, Next::Missed);
    }
    let c = letter(pattern[i], fold);
    if c <= SLASH {
        if c == b'*' {
            if i + 1 == pattern.len() {
                return at.leads(i, Next::Matched);
            }
            return at.leads(i, Next::Any);
        }
        if c == b'%' {
            return at.leads(i, Next::Level);
        }
    }
    if i == name.len() {
        return at.leads(i, Next::Missed);
    }
    if c != name[i] {
        return at.leads(i, Next::Missed);
    }
    at.leads(i + 1, Next::Front)
}

impl Front {
    // Before any step.
    const FIRST: Front = Front {
        i: 0,
        steps: 0,
        next: Next::Front,
    };

    // A step that leads to this place, or to the end.
    fn leads(self, i: usize, next: Next) -> Front
        ensures { result ≡ capped_front (led_is self i next) }
    {
        Front {
            i,
            steps: one_more(self.steps),
            next,
        }
    }

    // Whether the next step is none of these.
    #[tactic(auto, unfolding(crate::specs::Steps::front_ends))]
    pub(crate) fn ends(self) -> bool
        ensures { result ≡ front_ends self.next }
    {
        !matches!(self.next, Next::Front)
    }

    // Whether there is no step left.
    #[tactic(auto, unfolding(crate::specs::Steps::is_over))]
    pub(crate) fn is_over(self) -> bool
        ensures { result ≡ is_over self.next }
    {
        matches!(self.next, Next::Matched | Next::Missed)
    }

    // The answer, if there is no step left.
    #[tactic(auto, unfolding(crate::specs::Steps::is_match))]
    pub(crate) fn answer(self) -> Counted
        ensures { result ≡ record { matched = is_match self.next; steps = self.steps } }
    {
        Counted {
            matched: matches!(self.next, Next::Matched),
            steps: self.steps,
        }
    }

    // The wildcard, if that is where the last step led.
    #[tactic(auto, unfolding(crate::specs::Steps::wildcard_of))]
    pub(crate) fn wildcard(self) -> Kind
        ensures { result ≡ wildcard_of self.next }
    {
        match self.next {
            Next::Level => Kind::Level,
            Next::Any => Kind::Any,
            Next::Front | Next::Matched | Next::Missed => Kind::Plain,
        }
    }
}
