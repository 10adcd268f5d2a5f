// The requests that only move or compare registers: SETD, NIL, MOVE, ADVANCE and SAME.
ghost use Rattle.std.specs.Prelude.{◌≡◌, ◌<◌};
ghost use Rattle.rules.specs.Box.{reply, data_word, pointer, register, put_register};
ghost use Rattle.rules.specs.Request.{done, advance, same};
ghost use Rattle.lent.specs.Lent.{box_of, SameReferences};
ghost use Rattle.requests.specs.Refused.{answer_of};

use crate::refusal::Refusal;
use collector::{Word, packed};
use lent::MemoryUnit;

// Register r becomes data v.
pub(crate) fn set_data(unit: &mut MemoryUnit<'_>, r: u16, v: u32)
    requires { r < 8 }
    ensures same_references { SameReferences unit.old unit.new }
    ensures set { box_of unit.new ≡ put_register r (data_word v) (box_of unit.old) }
{
    unit.put_register(
        r,
        Word {
            bits: v,
            flag: false,
        },
    );
}

// Register r becomes nil.
pub(crate) fn set_nil(unit: &mut MemoryUnit<'_>, r: u16)
    requires { r < 8 }
    ensures same_references { SameReferences unit.old unit.new }
    ensures set { box_of unit.new ≡ put_register r (pointer 0 0) (box_of unit.old) }
{
    unit.put_register(
        r,
        Word {
            bits: 0,
            flag: true,
        },
    );
}

// Register r becomes what register s holds.
pub(crate) fn move_register(unit: &mut MemoryUnit<'_>, r: u16, s: u16)
    requires { (r < 8) × (s < 8) }
    ensures same_references { SameReferences unit.old unit.new }
    ensures set { box_of unit.new ≡ put_register r (register s (box_of unit.old)) (box_of unit.old) }
{
    let word = unit.register(s);
    unit.put_register(r, word);
}

// The offset in register r grows by n. Refused for data and past 65,535, and then nothing is changed.
#[tactic(auto, unfolding(rules::specs::Request::advance))]
pub(crate) fn advance(unit: &mut MemoryUnit<'_>, r: u16, n: u16) -> Result<(), Refusal>
    requires { r < 8 }
    ensures same_references { SameReferences unit.old unit.new }
    ensures answered { reply (box_of unit.new) (answer_of result) ≡ advance r n (box_of unit.old) }
{
    let word = unit.register(r);
    if !word.flag {
        return Err(Refusal::Data);
    }
    let offset = word.offset() + n as u32;
    if 65536 <= offset {
        return Err(Refusal::TooFar);
    }
    let bits = packed(word.handle(), offset);
    unit.put_register(r, Word { bits, flag: true });
    Ok(())
}

// Register r becomes data 1 if s and t are equal in word and flag, otherwise data 0.
#[tactic(auto, unfolding(rules::specs::Request::same, rules::specs::Request::same_word))]
pub(crate) fn same(unit: &mut MemoryUnit<'_>, r: u16, s: u16, t: u16)
    requires { (r < 8) × (s < 8) × (t < 8) }
    ensures same_references { SameReferences unit.old unit.new }
    ensures answered { done (box_of unit.new) ≡ same r s t (box_of unit.old) }
{
    let left = unit.register(s);
    let right = unit.register(t);
    let equal = left == right;
    set_data(unit, r, equal as u32);
}
