// A step that only goes through a tuple's words, which most steps do: it needs no entry and ends no cycle. A single step tries it first.
ghost use Rattle.std.specs.Prelude.{None, Some, IfSome, IsNone, ◌≡◌};
ghost use Rattle.rules.specs.Box.{reply};
ghost use Rattle.rules.specs.Collector.{mark_scan, sweep_read, sweep_zero};
ghost use Rattle.collector.specs.Answer.{number_of};
ghost use Rattle.lent.specs.Lent.{box_of, state_in, HasWords, SameReferences};
ghost use Rattle.phases.specs.Words.{at_word, AtWord, word_step};

use crate::phases::{sweep_clear, sweep_write};
use collector::{Answer, reaches};
use lent::MemoryUnit;

// The three steps at a word are not one function that goes by the phase: that was tried, and is slower (docs/DECISIONS.md, M-112).

// Phase 2 at a word: it is looked at. Answers 30.
#[tactic(auto, using(crate::proofs::WordSteps::scan_at))]
fn scan_word(unit: &mut MemoryUnit<'_>) -> Answer
    requires words { HasWords unit.old }
    requires at_word { AtWord (state_in unit.old) }
    ensures same_references { SameReferences unit.old unit.new }
    ensures ruled { reply (box_of unit.new) (number_of result) ≡ mark_scan (box_of unit.old) }
{
    let before = unit.state();
    let words = &mut *unit.words;
    let flags = &mut *unit.flags;
    let after = before.scan_word(words, flags);
    unit.put_back(before, after);
    Answer::Going
}

// Phase 5 at a word: it goes to the copy register. Answers 30.
#[tactic(auto, using(crate::proofs::WordSteps::read_at))]
fn read_word(unit: &mut MemoryUnit<'_>) -> Answer
    requires words { HasWords unit.old }
    requires at_word { AtWord (state_in unit.old) }
    ensures same_references { SameReferences unit.old unit.new }
    ensures ruled { reply (box_of unit.new) (number_of result) ≡ sweep_read (box_of unit.old) }
{
    let before = unit.state();
    let at = before.src + before.index;
    let words = &mut *unit.words;
    let flags = &mut *unit.flags;
    let after = before.copy_word(at, words, flags);
    unit.put_back(before, after);
    Answer::Going
}

// Phase 8 at a word: it becomes data 0. Answers 30.
#[tactic(auto, using(crate::proofs::WordSteps::zero_at))]
fn zero_word(unit: &mut MemoryUnit<'_>) -> Answer
    requires words { HasWords unit.old }
    requires at_word { AtWord (state_in unit.old) }
    ensures same_references { SameReferences unit.old unit.new }
    ensures ruled { reply (box_of unit.new) (number_of result) ≡ sweep_zero (box_of unit.old) }
{
    let before = unit.state();
    let after = before.zero_word(unit.words, unit.flags);
    unit.put_back(before, after);
    Answer::Going
}

// Whether the tuple has a word at index, and it is in memory.
#[inline(always)]
#[tactic(auto, unfolding(lent::specs::Lent::state_of))]
fn at_word(unit: &MemoryUnit<'_>) -> bool
    ensures { result ≡ at_word (box_of unit.now) }
{
    let numbers = &*unit.numbers;
    let index = numbers[12];
    index <= numbers[11] && reaches(numbers[0], numbers[8], index)
}

// A step that only goes through a tuple's words: phases 6 and 7, and phases 2, 5 and 8 up to the tuple's last word. Answers 30 or 9 as the
// phase's rule does; and nothing, with nothing changed, where the step is another one.
#[inline(always)]
#[tactic(auto, using(crate::proofs::WordSteps::words_7, crate::proofs::WordSteps::words_6, crate::proofs::WordSteps::words_5, crate::proofs::WordSteps::words_2, crate::proofs::WordSteps::words_8, crate::proofs::WordSteps::words_none, crate::proofs::WordSteps::words_other), unfolding(lent::specs::Lent::state_of))]
pub fn word_step(unit: &mut MemoryUnit<'_>) -> Option<Answer>
    requires { HasWords unit.old }
    ensures same_references { SameReferences unit.old unit.new }
    ensures done { IfSome result (λ a. word_step (box_of unit.old) ≡ Some (reply (box_of unit.new) (number_of a))) }
    ensures other { IsNone result → (word_step (box_of unit.old) ≡ None) × (box_of unit.new ≡ box_of unit.old) }
{
    let phase = unit.numbers[4];
    if phase == 7 {
        return Some(sweep_write(unit));
    }
    if phase == 6 {
        return Some(sweep_clear(unit));
    }
    if !at_word(unit) {
        return None;
    }
    // By the phase's number, which is lent.
    match phase {
        5 => Some(read_word(unit)),
        2 => Some(scan_word(unit)),
        8 => Some(zero_word(unit)),
        _ => None,
    }
}
