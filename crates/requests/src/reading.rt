// LOAD, SIZE and TAG: a register takes what is found behind another.
ghost use Rattle.std.specs.Prelude.{◌≡◌, ℕ, ◌<◌};
ghost use Rattle.rules.specs.Box.{reply};
ghost use Rattle.rules.specs.Request.{load, size, tag, tag_at};
ghost use Rattle.lent.specs.Lent.{box_of, state_in, HasColumns, SameReferences};
ghost use Rattle.requests.specs.Found.{when_got};
ghost use Rattle.requests.specs.Refused.{answer_of};

use crate::data::set_data;
use crate::find::{find_tuple, find_word};
use crate::place::{find_place, in_memory, read};
use crate::refusal::Refusal;
use collector::Word;
use lent::MemoryUnit;

// LOAD: register r takes the word that register s and k name.
#[tactic(auto, unfolding(rules::specs::Request::load))]
pub(crate) fn load(unit: &mut MemoryUnit<'_>, r: u16, s: u16, k: u16) -> Result<(), Refusal>
    requires columns { HasColumns unit.old }
    requires registers { (r < 8) × (s < 8) }
    ensures same_references { SameReferences unit.old unit.new }
    ensures answered { reply (box_of unit.new) (answer_of result) ≡ load r s k (box_of unit.old) }
{
    let pointer = unit.register(s);
    let slot = find_word(unit, pointer, k)?;
    let word = read(unit, slot.place);
    unit.put_register(r, word);
    Ok(())
}

// SIZE: register r becomes the size of the tuple that register s points to, 0 for nil.
#[tactic(auto, unfolding(rules::specs::Request::size))]
pub(crate) fn size(unit: &mut MemoryUnit<'_>, r: u16, s: u16) -> Result<(), Refusal>
    requires columns { HasColumns unit.old }
    requires registers { (r < 8) × (s < 8) }
    ensures same_references { SameReferences unit.old unit.new }
    ensures answered { reply (box_of unit.new) (answer_of result) ≡ size r s (box_of unit.old) }
{
    let pointer = unit.register(s);
    match find_tuple(unit, pointer)? {
        Some(h) => {
            let size = unit.sizes[h as usize];
            set_data(unit, r, size);
        }
        None => set_data(unit, r, 0),
    }
    Ok(())
}

// The tag of tuple h, the lower half of its control word. Refused where that word is outside memory.
#[tactic(auto, unfolding(rules::specs::Request::tag_at))]
fn tag_at(unit: &MemoryUnit<'_>, h: u32) -> Result<Word, Refusal>
    requires columns { HasColumns unit.now }
    requires tuple { h < (state_in unit.now).h }
    ensures { (r : ℕ) → when_got result r (box_of unit.now) ≡ tag_at r h (box_of unit.now) }
{
    let state = unit.state();
    let place = find_place(state, h, 0, unit.addresses);
    if !in_memory(state.m, place) {
        return Err(Refusal::Outside);
    }
    let bits = read(unit, place).offset();
    Ok(Word { bits, flag: false })
}

// TAG: register r becomes the tag of the tuple that register s points to, 0 for nil.
#[tactic(auto, unfolding(rules::specs::Request::tag))]
pub(crate) fn tag(unit: &mut MemoryUnit<'_>, r: u16, s: u16) -> Result<(), Refusal>
    requires columns { HasColumns unit.old }
    requires registers { (r < 8) × (s < 8) }
    ensures same_references { SameReferences unit.old unit.new }
    ensures answered { reply (box_of unit.new) (answer_of result) ≡ tag r s (box_of unit.old) }
{
    let pointer = unit.register(s);
    match find_tuple(unit, pointer)? {
        Some(h) => {
            let tag = tag_at(unit, h)?;
            unit.put_register(r, tag);
        }
        None => set_data(unit, r, 0),
    }
    Ok(())
}
