// GETM: a new tuple, at once or put on hold.
ghost use Rattle.std.specs.Prelude.{true, false, ◌≡◌, ◌<◌, length, set};
ghost use Rattle.rules.specs.Box.{reply};
ghost use Rattle.rules.specs.Request.{put_on_hold, getm};
ghost use Rattle.lent.specs.Lent.{box_of, HasColumns, SameReferences};
ghost use Rattle.requests.specs.Refused.{answer_of};

use crate::refusal::Refusal;
use lent::MemoryUnit;

// A request is held, and no cycle has begun under it yet. It takes a slice, as the stores of the copy register do.
fn begin_hold(switches: &mut [bool])
    requires { length switches.old ≡ 11 }
    ensures long { length switches.old ≡ 11 }
    ensures stored { switches.new ≡ set (set switches.old 9 true) 10 false }
{
    switches[9] = true;
    switches[10] = false;
}

// Puts a GETM on hold.
fn put_on_hold(unit: &mut MemoryUnit<'_>, r: u16, n: u16, tag: u16)
    ensures same_references { SameReferences unit.old unit.new }
    ensures held { box_of unit.new ≡ put_on_hold r n tag (box_of unit.old) }
{
    begin_hold(unit.switches);
    *unit.hold = [r, n, tag];
}

// GETM: a new tuple of n words, and register r points to it. Refused where n + 1 is above M, where there is no room, and then only the hold
// is set, and where it cannot be made.
#[tactic(auto, unfolding(rules::specs::Request::getm))]
pub(crate) fn getm(unit: &mut MemoryUnit<'_>, r: u16, n: u16, tag: u16) -> Result<(), Refusal>
    requires columns { HasColumns unit.old }
    requires register { r < 8 }
    ensures same_references { SameReferences unit.old unit.new }
    ensures answered { reply (box_of unit.new) (answer_of result) ≡ getm r n tag (box_of unit.old) }
{
    let state = unit.state();
    if state.m <= n as u32 {
        return Err(Refusal::TooLarge);
    }
    if state.no_room(n) {
        put_on_hold(unit, r, n, tag);
        return Err(Refusal::NoRoom);
    }
    if !state.can_make(n) {
        return Err(Refusal::Outside);
    }
    unit.make(r, n, tag);
    Ok(())
}
