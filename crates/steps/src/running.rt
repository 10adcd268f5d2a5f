// A run with a budget: single steps, until one ends a cycle with nothing held or answers the held request.
ghost use Rattle.std.specs.Prelude.{cond, ◌||◌, ◌≡◌, eqb};
ghost use Rattle.rules.specs.Run.{ran, run};
ghost use Rattle.collector.specs.Answer.{number_of};
ghost use Rattle.lent.specs.Lent.{box_of, SameReferences};
ghost use Rattle.steps.specs.Held.{box_held};

use crate::stepping::steps;
use collector::Answer;
use lent::MemoryUnit;

// A run's answer, and the number of single steps from its first state to its last. No `Result`: whatever the answer is, the steps count, and
// document 01's list of code forms has a run count them in its result.
#[derive(Clone, Copy)]
pub struct Ran {
    pub answer: u32,
    pub steps: u32,
}

// What a step's answer makes the run's answer: 9, 8 or 0 where it stops the run, and 11 where the run goes on, which is the run's own answer where
// the budget is spent then.
fn outcome(answer: Answer) -> u32
    ensures { result ≡ cond (eqb (number_of answer) 9) 9 (cond (eqb (number_of answer) 8) 8 (cond (eqb (number_of answer) 31 || eqb (number_of answer) 32) 0 11)) }
{
    match answer {
        Answer::Refused => 9,
        Answer::Dropped => 8,
        Answer::Ended | Answer::Granted => 0,
        Answer::Going | Answer::StillHeld => 11,
    }
}

// A run with a budget of steps. Answers 0 where it stopped at a step that answers 31 or 32, 8 where the held request was dropped, 9
// where sizes, lengths or phase are wrong, also with budget 0, or before a step that answers 9, else 11. A step that answers 9 is
// not counted, and leaves everything as found. After 33 the run goes on. It changes none of the hold's numbers (`held`).
#[tactic(auto, using(crate::proofs::Runs::run_starts, crate::proofs::Runs::run_spent, rules::proofs::Runs::run_refused))]
pub fn run(unit: &mut MemoryUnit<'_>, budget: u32) -> Ran
    ensures same_references { SameReferences unit.old unit.new }
    ensures ran { ran (box_of unit.new) result.answer result.steps ≡ run budget (box_of unit.old) }
    ensures held { ran (box_held unit.old unit.new) result.answer result.steps ≡ run budget (box_of unit.old) }
{
    if !unit.is_sound() {
        return Ran {
            answer: 9,
            steps: 0,
        };
    }
    let mut done: u32 = 0;
    // By stretches, each as long as it turns out to be: nothing here goes up by one.
    while done < budget {
        let went = steps(unit, budget - done);
        let answer = outcome(went.answer);
        done += went.steps;
        if answer != 11 {
            return Ran {
                answer,
                steps: done,
            };
        }
    }
    Ran {
        answer: 11,
        steps: done,
    }
}
