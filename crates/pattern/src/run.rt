// The match of a name against a pattern: its steps one after the other. The bytes of pattern and name are looked at in the steps alone,
// `look_at_ends`, `front_step` and `step`, and each counts itself; here nothing is looked at, and nothing is counted.
ghost use Rattle.pattern.specs.Steps.{Ran};

use crate::front::{first_step, front_step};
use crate::steps::{At, Counted, Going, Run, Star, step};

// All steps, up to the last. Only the second loop calls `step`, and its first state is written out here: with a second caller, or with a
// state that a function gives, the compiler would copy the state through memory.
// Pattern, name and `fold` are passed one by one: in a struct of the three, a step took nearly half as long again.
pub(crate) fn run_steps(pattern: &[u8], name: &[u8], fold: bool) -> Counted
    ensures { Ran fold pattern.now name.now result }
{
    let mut front = first_step(pattern, name, fold);
    if front.is_over() {
        return front.answer();
    }
    // No `for`, here and below: the state, and no count, tells the last step.
    loop {
        front = front_step(pattern, name, fold, front);
        if front.ends() {
            break;
        }
    }
    if front.is_over() {
        return front.answer();
    }
    let kind = front.wildcard();
    let back = front.i + 1;
    let mut at = At {
        i: back,
        j: front.i,
        steps: front.steps,
        run: Run { kind, back },
        star: Star::GONE,
        going: Going::On,
    };
    loop {
        at = step(pattern, name, fold, at);
        let going = at.going;
        match going {
            Going::On => {}
            Going::Matched => {
                return at.answer(true);
            }
            Going::Missed => {
                return at.answer(false);
            }
        }
    }
}
