// Single steps of the collector.
ghost use Rattle.std.specs.Prelude.{true, ◌≡◌};
ghost use Rattle.rules.specs.Box.{reply, sound};
ghost use Rattle.rules.specs.Collector.{step};
ghost use Rattle.rules.specs.Run.{ran};
ghost use Rattle.collector.specs.Answer.{number_of};
ghost use Rattle.lent.specs.Lent.{box_of, SameReferences};
ghost use Rattle.steps.specs.Held.{box_held};
ghost use Rattle.steps.specs.Stretch.{stretch};

use collector::Answer;
use lent::MemoryUnit;
use phases::{rule, word_step};

// One step of a sound box: the rule of its phase, and the tuple of a held request that it grants.
pub fn stepped(unit: &mut MemoryUnit<'_>) -> Answer
    requires { sound (box_of unit.old) ≡ true }
    ensures same_references { SameReferences unit.old unit.new }
    ensures answered { reply (box_of unit.new) (number_of result) ≡ step (box_of unit.old) }
{
    let answer = rule(unit);
    if answer == Answer::Granted {
        unit.grant();
    }
    answer
}

// How many steps were done, those that answer 9 not counted, and what the last one answered.
#[derive(Clone, Copy)]
pub(crate) struct Went {
    pub steps: u32,
    pub answer: Answer,
}

// Single steps of a sound box, at most so many, until one answers other than 30. The sizes, the lengths and the phase are not
// tested again: a step keeps them.
#[tactic(auto, using(crate::proofs::Runs::stretch_starts))]
pub(crate) fn steps(unit: &mut MemoryUnit<'_>, most: u32) -> Went
    requires { sound (box_of unit.old) ≡ true }
    ensures same_references { SameReferences unit.old unit.new }
    ensures went { ran (box_of unit.new) (number_of result.answer) result.steps ≡ stretch most (box_of unit.old) }
{
    for done in 0..most {
        let answer = stepped(unit);
        if answer == Answer::Refused {
            return Went {
                steps: done,
                answer,
            };
        }
        if answer != Answer::Going {
            return Went {
                steps: done + 1,
                answer,
            };
        }
    }
    Went {
        steps: most,
        answer: Answer::Going,
    }
}

// One step of a sound box, by the loop of a run: so the rules are compiled into one place.
fn any_step(unit: &mut MemoryUnit<'_>) -> Answer
    requires { sound (box_of unit.old) ≡ true }
    ensures same_references { SameReferences unit.old unit.new }
    ensures answered { reply (box_of unit.new) (number_of result) ≡ step (box_of unit.old) }
{
    steps(unit, 1).answer
}

// The step itself, of any box; `step` says of the hold too what follows from this.
#[inline(always)]
#[tactic(auto, using(crate::proofs::Ruling::step_refused, lent::proofs::Columns::sound_words, phases::proofs::WordSteps::word_done))]
fn one_step(unit: &mut MemoryUnit<'_>) -> u32
    ensures same_references { SameReferences unit.old unit.new }
    ensures answered { reply (box_of unit.new) result ≡ step (box_of unit.old) }
{
    if !unit.is_sound() {
        // Document 01's number, which the call gives.
        return 9;
    }
    // Most steps only go through a tuple's words.
    match word_step(unit) {
        Some(answer) => answer.number(),
        None => {
            // The same parts in a unit made here: the caller's can stay in registers then where a word's step is all. With the hints on inlining this
            // takes 4 to 7 percent off single calls.
            let mut again = MemoryUnit {
                numbers: &mut *unit.numbers,
                switches: &mut *unit.switches,
                hold: &mut *unit.hold,
                words: &mut *unit.words,
                flags: &mut *unit.flags,
                addresses: &mut *unit.addresses,
                sizes: &mut *unit.sizes,
                links: &mut *unit.links,
                marks: &mut *unit.marks,
                deeps: &mut *unit.deeps,
            };
            any_step(&mut again).number()
        }
    }
}

// One step of the collector, by the rule of its phase. Answers 30 going; 31 ended with nothing held, 32 ended and granted, 33 ended
// and still held; 8 the held request is dropped; 9 refused, and then everything is as found. It changes none of the hold's numbers (`held`).
#[inline(always)]
pub fn step(unit: &mut MemoryUnit<'_>) -> u32
    ensures same_references { SameReferences unit.old unit.new }
    ensures answered { reply (box_of unit.new) result ≡ step (box_of unit.old) }
    ensures held { reply (box_held unit.old unit.new) result ≡ step (box_of unit.old) }
{
    one_step(unit)
}
