// The rule of the phase.
ghost use Rattle.std.specs.Prelude.{true, ◌≡◌};
ghost use Rattle.rules.specs.Box.{reply, sound};
ghost use Rattle.rules.specs.Collector.{rule_of};
ghost use Rattle.collector.specs.Decide.{with_grant, Grants};
ghost use Rattle.collector.specs.Answer.{number_of};
ghost use Rattle.lent.specs.Lent.{box_of, state_in, SameReferences};
ghost use Rattle.phases.specs.Entries.{SameEntries};

use crate::phases::{
    mark_add, mark_next, mark_scan, rest, sweep_clear, sweep_read, sweep_scan, sweep_write,
    sweep_zero,
};
use collector::Answer;
use lent::MemoryUnit;

// The rule of the phase, 0 to 8, which is a number since it is lent and may be any. Where it answers 32 the held request is granted, and its tuple
// is still to be made.
#[tactic(auto, using(lent::proofs::Columns::sound_columns, lent::proofs::Columns::sound_words))]
pub fn rule(unit: &mut MemoryUnit<'_>) -> Answer
    requires { sound (box_of unit.old) ≡ true }
    ensures same_references { SameReferences unit.old unit.new }
    ensures ruled { with_grant (reply (box_of unit.new) (number_of result)) ≡ rule_of (state_in unit.old).phase (box_of unit.old) }
    ensures entries { SameEntries unit.old unit.new }
    ensures grants { Grants (state_in unit.old).m (state_in unit.old).h (state_in unit.new) (number_of result) }
{
    match unit.numbers[4] {
        0 => rest(unit),
        1 => mark_next(unit),
        2 => mark_scan(unit),
        3 => mark_add(unit),
        4 => sweep_scan(unit),
        5 => sweep_read(unit),
        6 => sweep_clear(unit),
        7 => sweep_write(unit),
        _ => sweep_zero(unit),
    }
}
