// Each phase of the collector on the lent parts: the struct is taken out of the arrays, the phase's method is called, and what it
// left is put back. Where one answers 32 the held request is granted, and its tuple is still to be made; `entries` says of the two columns that
// this tuple then changes, and that no phase writes, that they are as they were. A column that a method only reads is bound before the call: a
// shared field beside others of the unit is a call that the borrow checker doesn't cover yet. The nine are not one function that is handed a
// method: each method's promise would have to be said again of the closure, and each has columns of its own.
ghost use Rattle.std.specs.Prelude.{◌≡◌};
ghost use Rattle.rules.specs.Box.{reply};
ghost use Rattle.rules.specs.Collector.{rest, mark_next, mark_scan, mark_add, sweep_scan, sweep_read, sweep_clear, sweep_write, sweep_zero};
ghost use Rattle.collector.specs.Decide.{with_grant, Grants};
ghost use Rattle.collector.specs.Answer.{number_of};
ghost use Rattle.lent.specs.Lent.{box_of, state_in, HasColumns, HasWords, SameReferences};
ghost use Rattle.phases.specs.Entries.{SameEntries};

use crate::look::look;
use collector::Answer;
use lent::MemoryUnit;

// Phase 0, Rest: a cycle begins. Answers 30.
pub(crate) fn rest(unit: &mut MemoryUnit<'_>) -> Answer
    ensures same_references { SameReferences unit.old unit.new }
    ensures ruled { reply (box_of unit.new) (number_of result) ≡ rest (box_of unit.old) }
    ensures entries { SameEntries unit.old unit.new }
{
    let before = unit.state();
    let done = before.rest();
    unit.put_back(before, done.state);
    done.answer
}

// Phase 1, Mark next. With the next list empty the registers are looked at. Answers 30, what the end of the cycle gives, or 9.
pub(crate) fn mark_next(unit: &mut MemoryUnit<'_>) -> Answer
    requires { HasColumns unit.old }
    ensures same_references { SameReferences unit.old unit.new }
    ensures ruled { with_grant (reply (box_of unit.new) (number_of result)) ≡ mark_next (box_of unit.old) }
    ensures entries { SameEntries unit.old unit.new }
    ensures grants { Grants (state_in unit.old).m (state_in unit.old).h (state_in unit.new) (number_of result) }
{
    let before = unit.state();
    let root = look(unit, before.next);
    let words = &mut *unit.words;
    let flags = &mut *unit.flags;
    let addresses = &mut *unit.addresses;
    let sizes = &mut *unit.sizes;
    let deeps = &mut *unit.deeps;
    let done = before.mark_next(
        root, words, flags, addresses, sizes, unit.links, unit.marks, deeps,
    );
    unit.put_back(before, done.state);
    done.answer
}

// Phase 2, Mark scan. Answers 30 or 9.
pub(crate) fn mark_scan(unit: &mut MemoryUnit<'_>) -> Answer
    requires { HasColumns unit.old }
    ensures same_references { SameReferences unit.old unit.new }
    ensures ruled { reply (box_of unit.new) (number_of result) ≡ mark_scan (box_of unit.old) }
    ensures entries { SameEntries unit.old unit.new }
{
    let before = unit.state();
    let words = &mut *unit.words;
    let flags = &mut *unit.flags;
    let addresses = &mut *unit.addresses;
    let sizes = &mut *unit.sizes;
    let links = &mut *unit.links;
    let done = before.mark_scan(words, flags, addresses, sizes, links);
    unit.put_back(before, done.state);
    done.answer
}

// Phase 3, Mark add. Answers 30 or 9.
pub(crate) fn mark_add(unit: &mut MemoryUnit<'_>) -> Answer
    requires { HasColumns unit.old }
    ensures same_references { SameReferences unit.old unit.new }
    ensures ruled { reply (box_of unit.new) (number_of result) ≡ mark_add (box_of unit.old) }
    ensures entries { SameEntries unit.old unit.new }
{
    let before = unit.state();
    let sizes = &mut *unit.sizes;
    let deeps = &mut *unit.deeps;
    let done = before.mark_add(sizes, unit.links, unit.marks, deeps);
    unit.put_back(before, done.state);
    done.answer
}

// Phase 4, Sweep scan. Answers 30, what the end of the cycle gives, or 9.
pub(crate) fn sweep_scan(unit: &mut MemoryUnit<'_>) -> Answer
    requires { HasColumns unit.old }
    ensures same_references { SameReferences unit.old unit.new }
    ensures ruled { with_grant (reply (box_of unit.new) (number_of result)) ≡ sweep_scan (box_of unit.old) }
    ensures entries { SameEntries unit.old unit.new }
    ensures grants { Grants (state_in unit.old).m (state_in unit.old).h (state_in unit.new) (number_of result) }
{
    let before = unit.state();
    let words = &mut *unit.words;
    let flags = &mut *unit.flags;
    let sizes = &mut *unit.sizes;
    let done = before.sweep_scan(words, flags, sizes, unit.links, unit.marks);
    unit.put_back(before, done.state);
    done.answer
}

// Phase 5, Sweep read. Answers 30, what the end of the cycle gives, or 9.
pub(crate) fn sweep_read(unit: &mut MemoryUnit<'_>) -> Answer
    requires { HasColumns unit.old }
    ensures same_references { SameReferences unit.old unit.new }
    ensures ruled { with_grant (reply (box_of unit.new) (number_of result)) ≡ sweep_read (box_of unit.old) }
    ensures entries { SameEntries unit.old unit.new }
    ensures grants { Grants (state_in unit.old).m (state_in unit.old).h (state_in unit.new) (number_of result) }
{
    let before = unit.state();
    let words = &mut *unit.words;
    let flags = &mut *unit.flags;
    let done = before.sweep_read(words, flags, unit.addresses);
    unit.put_back(before, done.state);
    done.answer
}

// Phase 6, Sweep clear. Answers 30 or 9.
pub(crate) fn sweep_clear(unit: &mut MemoryUnit<'_>) -> Answer
    requires { HasWords unit.old }
    ensures same_references { SameReferences unit.old unit.new }
    ensures ruled { reply (box_of unit.new) (number_of result) ≡ sweep_clear (box_of unit.old) }
    ensures entries { SameEntries unit.old unit.new }
{
    let before = unit.state();
    let done = before.sweep_clear(unit.words, unit.flags);
    unit.put_back(before, done.state);
    done.answer
}

// Phase 7, Sweep write. Answers 30 or 9.
pub(crate) fn sweep_write(unit: &mut MemoryUnit<'_>) -> Answer
    requires { HasWords unit.old }
    ensures same_references { SameReferences unit.old unit.new }
    ensures ruled { reply (box_of unit.new) (number_of result) ≡ sweep_write (box_of unit.old) }
    ensures entries { SameEntries unit.old unit.new }
{
    let before = unit.state();
    let done = before.sweep_write(unit.words, unit.flags);
    unit.put_back(before, done.state);
    done.answer
}

// Phase 8, Sweep zero. Answers 30, what the end of the cycle gives, or 9.
pub(crate) fn sweep_zero(unit: &mut MemoryUnit<'_>) -> Answer
    requires { HasWords unit.old }
    ensures same_references { SameReferences unit.old unit.new }
    ensures ruled { with_grant (reply (box_of unit.new) (number_of result)) ≡ sweep_zero (box_of unit.old) }
    ensures entries { SameEntries unit.old unit.new }
    ensures grants { Grants (state_in unit.old).m (state_in unit.old).h (state_in unit.new) (number_of result) }
{
    let before = unit.state();
    let done = before.sweep_zero(unit.words, unit.flags);
    unit.put_back(before, done.state);
    done.answer
}
