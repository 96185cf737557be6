// One step of the match of a name against a pattern, where there may be something to go back to. It looks at one place of the pattern and
// one of the name, takes the state by value and adds one to its count; it has no loop and calls itself nowhere.
//
// A run of bytes that stand for themselves is compared from where a wildcard lets it begin. Where it differs it begins again, one byte
// of the name later. A "%" that has met its "/" is given up for the "*" before it. A "*" is never given up: what a "*" before it could
// take, it takes as well. So a place of the pattern meets the places of the name in ascending order, each at most once; place 0 meets one
// only, which leaves room in the bound for the look at the last places (`front`).
//
// What is decided by cases is an enum without data, with its numbers beside it, so that the state stays in registers.
ghost use Rattle.std.specs.Prelude.{◌≡◌, ◌+◌, ◌-◌, ◌^◌, ◌≤◌, ◌<◌, length};
ghost use Rattle.pattern.specs.Steps.{Inside, Backed, went_is, ended_is, begun_is, resumed_is, retried_is, given_up_is, star_is, level_is, fixed_is};
ghost use Rattle.pattern.specs.Steps.{slash_is, byte_is, step_is, capped, capped_at};

use crate::letter;
use octets::SLASH;

// What the bytes that are compared began after: nothing that moves; a "%"; a "*".
#[derive(Clone, Copy)]
pub(crate) enum Kind {
    Plain,
    Level,
    Any,
}

// The run of bytes that is compared: after a wildcard, it began at this place of the pattern.
#[derive(Clone, Copy)]
pub(crate) struct Run {
    pub kind: Kind,
    pub back: usize,
}

// Whether there is a "*" to go back to, and whether it is known where it begins again: after the next "/", or at a place of the name.
#[derive(Clone, Copy)]
pub(crate) enum Known {
    Gone,
    Pending,
    Settled,
}

// The "*" that a "%" is given up for: it stands before this place of the pattern, and begins again at that place of the name.
#[derive(Clone, Copy)]
pub(crate) struct Star {
    pub known: Known,
    pub place: usize,
    pub from: usize,
}

#[derive(Clone, Copy)]
pub(crate) enum Going {
    On,
    Matched,
    Missed,
}

// The places of the pattern and of the name that are looked at next, and the steps so far.
#[derive(Clone, Copy)]
pub(crate) struct At {
    pub i: usize,
    pub j: usize,
    pub steps: usize,
    pub run: Run,
    pub star: Star,
    pub going: Going,
}

// Whether the name matches, and the steps that it took. No Option: they are counted of a name that does not match, too.
#[derive(Clone, Copy)]
pub struct Counted {
    pub matched: bool,
    pub steps: usize,
}

impl Run {
    pub(crate) const PLAIN: Run = Run {
        kind: Kind::Plain,
        back: 0,
    };
}

impl Star {
    pub(crate) const GONE: Star = Star {
        known: Known::Gone,
        place: 0,
        from: 0,
    };
}

// One step.
pub(crate) fn step(pattern: &[u8], name: &[u8], fold: bool, at: At) -> At
    requires { Inside (length pattern.now) (length name.now) at }
    ensures { result ≡ capped_at (step_is fold pattern.now name.now at) }
{
    let i = at.i;
    let j = at.j;
    if i == pattern.len() {
        if j == name.len() {
            return at.ends(Going::Matched);
        }
        return at.give_up(name[j]);
    }
    let c = letter(pattern[i], fold);
    if c <= SLASH {
        if c == b'*' {
            return at.star_step(i + 1 == pattern.len());
        }
        if c == b'%' {
            return at.level_step();
        }
    }
    if j == name.len() {
        return at.ends(Going::Missed);
    }
    at.byte_step(c, name[j])
}

// The count with one step more. It stays at the largest number, which only a pattern of over 2^55 bytes could come to.
#[tactic(auto, unfolding(crate::specs::Steps::capped))]
pub(crate) fn one_more(steps: usize) -> usize
    ensures { result ≡ capped (steps + 1) }
{
    steps.saturating_add(1)
}

impl At {
    // A step that leads to these places, and one that is the last.
    fn goes(self, i: usize, j: usize, run: Run, star: Star) -> At
        ensures { result ≡ capped_at (went_is self i j run star) }
    {
        At {
            i,
            j,
            steps: one_more(self.steps),
            run,
            star,
            going: Going::On,
        }
    }

    fn ends(self, going: Going) -> At
        ensures { result ≡ capped_at (ended_is self going) }
    {
        At {
            i: self.i,
            j: self.j,
            steps: one_more(self.steps),
            run: Run::PLAIN,
            star: Star::GONE,
            going,
        }
    }

    // The answer, with the steps so far.
    pub(crate) fn answer(self, matched: bool) -> Counted
        ensures { result ≡ record { matched = matched; steps = self.steps } }
    {
        Counted {
            matched,
            steps: self.steps,
        }
    }

    // What is after a "*" begins at these places.
    fn begins(self, i: usize, j: usize) -> At
        ensures { result ≡ capped_at (begun_is self i j) }
    {
        self.goes(
            i,
            j,
            Run {
                kind: Kind::Any,
                back: i,
            },
            Star::GONE,
        )
    }

    // At "*": what is after it begins here, or anywhere later. A last one takes all that is left.
    #[tactic(auto, unfolding(crate::specs::Steps::star_is))]
    fn star_step(self, last: bool) -> At
        requires { self.i < 2 ^ 64 - 1 }
        ensures { result ≡ capped_at (star_is last self) }
    {
        if last {
            return self.ends(Going::Matched);
        }
        self.begins(self.i + 1, self.j)
    }

    // At "%": what is after it begins here, or later in this level. The "*" to go back to is the one that the run began after, or
    // the one before that.
    #[tactic(auto, unfolding(crate::specs::Steps::pending_as))]
    fn level_step(self) -> At
        requires { self.i < 2 ^ 64 - 1 }
        ensures { result ≡ capped_at (level_is self) }
    {
        let i = self.i + 1;
        let run = self.run;
        let kind = run.kind;
        let star = self.star;
        let level = Run {
            kind: Kind::Level,
            back: i,
        };
        match kind {
            Kind::Plain => self.goes(i, self.j, level, star),
            Kind::Level => self.goes(i, self.j, level, star),
            Kind::Any => self.goes(
                i,
                self.j,
                level,
                Star {
                    known: Known::Pending,
                    place: run.back,
                    from: 0,
                },
            ),
        }
    }

    // At a byte that stands for itself, where the name has the byte d.
    fn byte_step(self, c: u8, d: u8) -> At
        requires i_bound { self.i < 2 ^ 64 - 1 }
        requires j_bound { self.j < 2 ^ 64 - 1 }
        requires backed { Backed self }
        ensures { result ≡ capped_at (byte_is c d self) }
    {
        if c != d {
            return self.give_up(d);
        }
        if c == SLASH {
            return self.slash_step();
        }
        let run = self.run;
        let star = self.star;
        self.goes(self.i + 1, self.j + 1, run, star)
    }

    // A "/" of both ends what a "%" could take, and settles where the "*" before it begins again.
    #[tactic(auto, unfolding(crate::specs::Steps::settled_as))]
    fn slash_step(self) -> At
        requires i_bound { self.i < 2 ^ 64 - 1 }
        requires j_bound { self.j < 2 ^ 64 - 1 }
        ensures { result ≡ capped_at (slash_is self) }
    {
        let i = self.i + 1;
        let j = self.j + 1;
        let run = self.run;
        let kind = run.kind;
        let star = self.star;
        match kind {
            Kind::Plain => self.goes(i, j, Run::PLAIN, star),
            Kind::Level => self.goes(i, j, Run::PLAIN, star.settle(j)),
            Kind::Any => self.goes(
                i,
                j,
                Run::PLAIN,
                Star {
                    known: Known::Settled,
                    place: run.back,
                    from: j,
                },
            ),
        }
    }

    // No match here, where the name has the byte d: the run begins again a byte later, unless a "/" would be passed within a level.
    //
    // Where it is called apart, the compiler copies the state through memory at every step, which takes ten times as long.
    #[inline(always)]
    fn give_up(self, d: u8) -> At
        requires j_bound { self.j < 2 ^ 64 - 1 }
        requires backed { Backed self }
        ensures { result ≡ capped_at (given_up_is self d) }
    {
        let run = self.run;
        let kind = run.kind;
        match kind {
            Kind::Plain => self.resume(),
            Kind::Level => {
                if d != SLASH {
                    return self.retry();
                }
                if self.i != run.back {
                    return self.retry();
                }
                self.resume()
            }
            Kind::Any => self.retry(),
        }
    }

    // The run begins again, one byte of the name later than before.
    fn retry(self) -> At
        requires j_bound { self.j < 2 ^ 64 - 1 }
        requires back_le_i { self.run.back ≤ self.i }
        requires i_bound { self.i ≤ self.j + self.run.back }
        ensures { result ≡ capped_at (retried_is self) }
    {
        let run = self.run;
        let star = self.star;
        self.goes(run.back, self.j + 1 - (self.i - run.back), run, star)
    }

    // No match in this level: the "*" before it goes on.
    #[tactic(auto, unfolding(crate::specs::Steps::resumed_as))]
    fn resume(self) -> At
        requires { self.j < 2 ^ 64 - 1 }
        ensures { result ≡ capped_at (resumed_is self) }
    {
        let star = self.star;
        let known = star.known;
        match known {
            Known::Gone => self.ends(Going::Missed),
            Known::Pending => self.begins(star.place, self.j + 1),
            Known::Settled => self.begins(star.place, star.from),
        }
    }
}

impl Star {
    // After a "/", with the next place of the name.
    #[tactic(auto, unfolding(crate::specs::Steps::fixed_as))]
    fn settle(self, next: usize) -> Star
        ensures { result ≡ fixed_is self next }
    {
        let known = self.known;
        match known {
            Known::Gone => self,
            Known::Pending => Star {
                known: Known::Settled,
                place: self.place,
                from: next,
            },
            Known::Settled => self,
        }
    }
}
