// Any request: the order of refusals, and each kind's own function.
ghost use Rattle.std.specs.Prelude.{true, ◌≡◌};
ghost use Rattle.rules.specs.Box.{reply, sound};
ghost use Rattle.rules.specs.Request.{is_register, registers_right, carry_out, request};
ghost use Rattle.lent.specs.Lent.{box_of, HasColumns, SameReferences};
ghost use Rattle.requests.specs.Refused.{answer_of};

use crate::data::{advance, move_register, same, set_data, set_nil};
use crate::reading::{load, size, tag};
use crate::refusal::Refusal;
use crate::storing::store;
use crate::tuple::getm;
use lent::MemoryUnit;
use rules::Request;

// Whether a number is a register's.
fn is_register(r: u16) -> bool
    ensures { result ≡ is_register r }
{
    r < 8
}

// Whether every register that a request names is 0 to 7. It is asked once, and then stands as `r < 8` in what the functions of the kinds ask for: a
// type for such a register would have to be made of each number again in each arm of `carry_out`.
// An arm for each kind: with the kinds of one test joined in an arm the compiled call readied all columns before it, and a refused request took a
// quarter longer (docs/PERFORMANCE.md).
#[tactic(auto, unfolding(rules::specs::Request::registers_right))]
fn registers_right(q: Request) -> bool
    ensures { result ≡ registers_right q }
{
    match q {
        Request::Setd { r, .. } => is_register(r),
        Request::Nil { r } => is_register(r),
        Request::Move { r, s } => is_register(r) && is_register(s),
        Request::Advance { r, .. } => is_register(r),
        Request::Getm { r, .. } => is_register(r),
        Request::Load { r, s, .. } => is_register(r) && is_register(s),
        Request::Store { r, s, .. } => is_register(r) && is_register(s),
        Request::Size { r, s } => is_register(r) && is_register(s),
        Request::Tag { r, s } => is_register(r) && is_register(s),
        Request::Same { r, s, t } => is_register(r) && is_register(s) && is_register(t),
    }
}

// Carries out a request, by its kind.
#[tactic(auto, unfolding(rules::specs::Request::carry_out, rules::specs::Request::registers_right))]
fn carry_out(unit: &mut MemoryUnit<'_>, q: Request) -> Result<(), Refusal>
    requires columns { HasColumns unit.old }
    requires registers { registers_right q ≡ true }
    ensures same_references { SameReferences unit.old unit.new }
    ensures answered { reply (box_of unit.new) (answer_of result) ≡ carry_out q (box_of unit.old) }
{
    match q {
        Request::Setd { r, v } => set_data(unit, r, v),
        Request::Nil { r } => set_nil(unit, r),
        Request::Move { r, s } => move_register(unit, r, s),
        Request::Advance { r, n } => return advance(unit, r, n),
        Request::Getm { r, n, tag } => return getm(unit, r, n, tag),
        Request::Load { r, s, k } => return load(unit, r, s, k),
        Request::Store { r, s, k } => return store(unit, r, s, k),
        Request::Size { r, s } => return size(unit, r, s),
        Request::Tag { r, s } => return tag(unit, r, s),
        Request::Same { r, s, t } => same(unit, r, s, t),
    }
    Ok(())
}

// A request of a box of which it is known whether it is sound. Refused where it is not, for a register above 7, while a request is held, and
// then as its kind is.
#[tactic(auto, using(lent::proofs::Columns::sound_columns), unfolding(rules::specs::Request::request))]
fn checked(unit: &mut MemoryUnit<'_>, right: bool, q: Request) -> Result<(), Refusal>
    requires { sound (box_of unit.old) ≡ right }
    ensures same_references { SameReferences unit.old unit.new }
    ensures answered { reply (box_of unit.new) (answer_of result) ≡ request q (box_of unit.old) }
{
    if !right {
        return Err(Refusal::Outside);
    }
    if !registers_right(q) {
        return Err(Refusal::NoRegister);
    }
    if unit.state().held {
        return Err(Refusal::Held);
    }
    carry_out(unit, q)
}

// The same, answered by document 01's numbers. One who asks several requests in a row, and lends the box to nobody between them, tests once
// whether it is sound: a request leaves it as it is.
pub fn requested(unit: &mut MemoryUnit<'_>, right: bool, q: Request) -> u32
    requires { sound (box_of unit.old) ≡ right }
    ensures same_references { SameReferences unit.old unit.new }
    ensures answered { reply (box_of unit.new) result ≡ request q (box_of unit.old) }
{
    match checked(unit, right, q) {
        Ok(()) => 0,
        Err(refusal) => refusal.number(),
    }
}
