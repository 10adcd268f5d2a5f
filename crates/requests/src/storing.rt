// STORE, with its write barrier. The collector's struct is taken out of the lent arrays only to find the word and to shade; the word goes
// straight into the lent parts.
ghost use Rattle.std.specs.Prelude.{cond, not, ◌||◌, ◌≡◌, ◌<◌, length, set};
ghost use Rattle.rules.specs.Parts.{Box};
ghost use Rattle.rules.specs.Box.{reply, handle_of};
ghost use Rattle.rules.specs.Place.{write, can_shade, shade};
ghost use Rattle.rules.specs.Request.{shades, shaded_first, deepened, store_word, store};
ghost use Rattle.collector.specs.Boxed.{word_of};
ghost use Rattle.lent.specs.Lent.{box_of, state_in, HasColumns, SameReferences};
ghost use Rattle.requests.specs.Found.{place_of, Within};
ghost use Rattle.requests.specs.Refused.{answer_of};

use crate::find::{Slot, find_word};
use crate::place::Place;
use crate::refusal::Refusal;
use collector::Word;
use lent::MemoryUnit;

// Whether a word is shaded before it is stored: a pointer other than nil, in phase 1, 2 or 3.
#[tactic(auto, unfolding(rules::specs::Request::shades))]
fn shades(phase: u32, w: Word) -> bool
    ensures { (b : Box) → b.collector.phase ≡ phase → result ≡ shades (word_of w) b }
{
    w.names_tuple() && 1 <= phase && phase <= 3
}

// Shades the target of a pointer, where it can be shaded, and says whether it can. Otherwise nothing is changed.
fn shade_target(unit: &mut MemoryUnit<'_>, target: u32) -> bool
    requires { HasColumns unit.old }
    ensures same_references { SameReferences unit.old unit.new }
    ensures can { result ≡ can_shade target (box_of unit.old) }
    ensures shaded { box_of unit.new ≡ cond result (shade target (box_of unit.old)) (box_of unit.old) }
{
    let before = unit.state();
    let sizes = &mut *unit.sizes;
    let marks = &mut *unit.marks;
    let deeps = &mut *unit.deeps;
    if !before.can_shade(target, sizes, marks) {
        return false;
    }
    let after = before.shade(target, sizes, unit.links, marks, deeps);
    unit.put_back(before, after);
    true
}

// Shades what a word points to, where it is to be shaded before the word is stored. False where it cannot be, and then nothing is
// changed.
#[tactic(auto, unfolding(rules::specs::Request::shaded_first))]
fn shade_first(unit: &mut MemoryUnit<'_>, w: Word) -> bool
    requires { HasColumns unit.old }
    ensures same_references { SameReferences unit.old unit.new }
    ensures can { result ≡ (not (shades (word_of w) (box_of unit.old)) || can_shade (handle_of (word_of w)) (box_of unit.old)) }
    ensures shaded { box_of unit.new ≡ cond result (shaded_first (word_of w) (box_of unit.old)) (box_of unit.old) }
{
    if shades(unit.state().phase, w) {
        return shade_target(unit, w.handle());
    }
    true
}

// The bits of the copy register, number 13. This and the next function take a slice, whose length the prover knows; it needs that where a store
// is read back.
fn put_copy_bits(numbers: &mut [u32], bits: u32)
    requires { length numbers.old ≡ 22 }
    ensures long { length numbers.old ≡ 22 }
    ensures stored { numbers.new ≡ set numbers.old 13 bits }
{
    numbers[13] = bits;
}

// The flag of the copy register, switch 8.
fn put_copy_flag(switches: &mut [bool], flag: bool)
    requires { length switches.old ≡ 11 }
    ensures long { length switches.old ≡ 11 }
    ensures stored { switches.new ≡ set switches.old 8 flag }
{
    switches[8] = flag;
}

// A pointer other than nil makes the tuple deep that takes it.
#[tactic(auto, unfolding(rules::specs::Request::deepened))]
fn deepen(unit: &mut MemoryUnit<'_>, h: u32, w: Word)
    requires columns { HasColumns unit.old }
    requires tuple { h < (state_in unit.old).h }
    ensures same_references { SameReferences unit.old unit.new }
    ensures deepened { box_of unit.new ≡ deepened (word_of w) h (box_of unit.old) }
{
    if w.names_tuple() {
        unit.deeps[h as usize] = true;
    }
}

// Puts a word at a place.
#[tactic(auto, using(crate::proofs::Stores::copy_put), unfolding(rules::specs::Place::write))]
fn write(unit: &mut MemoryUnit<'_>, p: Place, w: Word)
    requires columns { HasColumns unit.old }
    requires within { Within p (state_in unit.old).m }
    ensures same_references { SameReferences unit.old unit.new }
    ensures written { box_of unit.new ≡ write (place_of p) (word_of w) (box_of unit.old) }
{
    match p {
        Place::Copy => {
            put_copy_bits(unit.numbers, w.bits);
            put_copy_flag(unit.switches, w.flag);
        }
        Place::At(a) => {
            unit.words[a] = w.bits;
            unit.flags[a] = w.flag;
        }
    }
}

// Stores a word at a place of a tuple, its target shaded first where it must be. Refused where the target cannot be shaded, and then nothing
// is changed.
#[tactic(auto, unfolding(rules::specs::Request::store_word))]
fn store_word(unit: &mut MemoryUnit<'_>, slot: Slot, w: Word) -> Result<(), Refusal>
    requires columns { HasColumns unit.old }
    requires right_slot { (slot.tuple < (state_in unit.old).h) × Within slot.place (state_in unit.old).m }
    ensures same_references { SameReferences unit.old unit.new }
    ensures answered { reply (box_of unit.new) (answer_of result) ≡ store_word (word_of w) slot.tuple (place_of slot.place) (box_of unit.old) }
{
    if !shade_first(unit, w) {
        return Err(Refusal::Outside);
    }
    deepen(unit, slot.tuple, w);
    write(unit, slot.place, w);
    Ok(())
}

// STORE: the word that register s and k name takes register r.
#[tactic(auto, unfolding(rules::specs::Request::store))]
pub(crate) fn store(unit: &mut MemoryUnit<'_>, r: u16, s: u16, k: u16) -> Result<(), Refusal>
    requires columns { HasColumns unit.old }
    requires registers { (r < 8) × (s < 8) }
    ensures same_references { SameReferences unit.old unit.new }
    ensures answered { reply (box_of unit.new) (answer_of result) ≡ store r s k (box_of unit.old) }
{
    let word = unit.register(r);
    let pointer = unit.register(s);
    let slot = find_word(unit, pointer, k)?;
    store_word(unit, slot, word)
}
