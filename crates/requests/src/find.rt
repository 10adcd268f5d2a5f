// What a register's word points to: its tuple, and a word of it.
ghost use Rattle.std.specs.Prelude.{◌≡◌, ℕ, ◌<◌};
ghost use Rattle.rules.specs.Box.{Reply, reply};
ghost use Rattle.rules.specs.Request.{at_tuple, at_word, word_number};
ghost use Rattle.collector.specs.Boxed.{word_of};
ghost use Rattle.lent.specs.Lent.{box_of, state_in, HasColumns};
ghost use Rattle.requests.specs.Found.{Use, when_named, when_found, RightName, RightSlot};

use crate::place::{Place, find_place, in_memory};
use crate::refusal::Refusal;
use collector::Word;
use lent::MemoryUnit;

// A word of a tuple, by the tuple's handle and the word's place.
#[derive(Clone, Copy)]
pub struct Slot {
    pub tuple: u32,
    pub place: Place,
}

// The tuple that a word names, by its handle; none for nil. Refused for data, and for a handle that is no entry.
#[tactic(auto, unfolding(rules::specs::Request::at_tuple, rules::specs::Box::is_entry))]
pub(crate) fn find_tuple(unit: &MemoryUnit<'_>, w: Word) -> Result<Option<u32>, Refusal>
    ensures found { (z : Reply) (f : ℕ → Reply) → when_named result (box_of unit.now) z f ≡ at_tuple (word_of w) (box_of unit.now) z f }
    ensures right_name { RightName result (state_in unit.now).h }
{
    if !w.flag {
        return Err(Refusal::Data);
    }
    let h = w.handle();
    if h == 0 {
        return Ok(None);
    }
    if unit.state().h <= h {
        return Err(Refusal::Outside);
    }
    Ok(Some(h))
}

// Word n of tuple h. Refused beyond its size, and for a place outside memory.
#[tactic(auto, unfolding(rules::specs::Request::at_word))]
fn find_slot(unit: &MemoryUnit<'_>, h: u32, n: u32) -> Result<Slot, Refusal>
    requires columns { HasColumns unit.now }
    requires tuple { h < (state_in unit.now).h }
    requires number { n < 131072 }
    ensures found { (f : Use) → when_found result (box_of unit.now) f ≡ at_word h n (box_of unit.now) (f h) }
    ensures right_slot { RightSlot result (state_in unit.now).m (state_in unit.now).h }
{
    let size = unit.sizes[h as usize];
    if size <= n {
        return Err(Refusal::Beyond);
    }
    let state = unit.state();
    let place = find_place(state, h, n + 1, unit.addresses);
    if !in_memory(state.m, place) {
        return Err(Refusal::Outside);
    }
    Ok(Slot { tuple: h, place })
}

// The word that w, its offset and k name. Refused for data, for nil and beyond the tuple's size, and for a handle or a place that is
// outside.
#[tactic(auto, unfolding(rules::specs::Request::word_number))]
pub(crate) fn find_word(unit: &MemoryUnit<'_>, w: Word, k: u16) -> Result<Slot, Refusal>
    requires { HasColumns unit.now }
    ensures found { (f : Use) → when_found result (box_of unit.now) f ≡ at_tuple (word_of w) (box_of unit.now) (reply (box_of unit.now) 3) (λ h. at_word h (word_number (word_of w) k) (box_of unit.now) (f h)) }
    ensures right_slot { RightSlot result (state_in unit.now).m (state_in unit.now).h }
{
    let Some(h) = find_tuple(unit, w)? else {
        return Err(Refusal::Beyond);
    };
    find_slot(unit, h, w.offset() + k as u32)
}
