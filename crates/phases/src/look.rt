// The look at the registers, for roots: from register 0 upward, data, nil and marked tuples passed over, none after the one found.
ghost use Rattle.std.specs.Prelude.{◌≡◌, length};
ghost use Rattle.rules.specs.Limits.{register_count};
ghost use Rattle.rules.specs.Collector.{look_from};
ghost use Rattle.collector.specs.Boxed.{word_of};
ghost use Rattle.collector.specs.Decide.{found_as};
ghost use Rattle.lent.specs.Lent.{box_of, state_in};
ghost use Rattle.phases.specs.Passing.{passed_over};

use collector::Word;
use lent::MemoryUnit;

// Whether a register's word is passed over: it is data or nil, or names a marked tuple.
#[tactic(auto, using(crate::proofs::Looking::passes_plain, crate::proofs::Looking::passes_marked, crate::proofs::Looking::stops_far), unfolding(lent::specs::Lent::state_of))]
fn passed_over(unit: &MemoryUnit<'_>, word: Word) -> bool
    requires { length unit.now.marks.now ≡ (state_in unit.now).h }
    ensures { result ≡ passed_over (word_of word) (box_of unit.now) }
{
    if !word.names_tuple() {
        return true;
    }
    let numbers = &*unit.numbers;
    let marks = &*unit.marks;
    let handle = word.handle();
    handle < numbers[1] && marks[handle as usize]
}

// The handle that the first register not passed over names, which may be no entry.
#[tactic(auto, using(crate::proofs::Looking::look_on, crate::proofs::Looking::look_stop, crate::proofs::Looking::look_end))]
fn first_root(unit: &MemoryUnit<'_>) -> Option<u32>
    requires { length unit.now.marks.now ≡ (state_in unit.now).h }
    ensures { found_as result (box_of unit.now) ≡ look_from register_count (box_of unit.now) }
{
    for r in 0..8 {
        let word = unit.register(r);
        if !passed_over(unit, word) {
            return Some(word.handle());
        }
    }
    None
}

// The first root, where the next list is empty. Else none is looked for.
pub(crate) fn look(unit: &MemoryUnit<'_>, next: u32) -> Option<u32>
    requires { length unit.now.marks.now ≡ (state_in unit.now).h }
    ensures { next ≡ 0 → found_as result (box_of unit.now) ≡ look_from register_count (box_of unit.now) }
{
    if next == 0 {
        return first_root(unit);
    }
    None
}
