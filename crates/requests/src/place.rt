// Where a word of a tuple is (document 01), and reading it there.
ghost use Rattle.std.specs.Prelude.{Bool, true, List, ◌≡◌, ℕ, ◌<◌, length};
ghost use Rattle.rules.specs.Parts.{Registers, Box};
ghost use Rattle.rules.specs.Place.{place, in_memory, read};
ghost use Rattle.collector.specs.Boxed.{boxed, word_of};
ghost use Rattle.lent.specs.Lent.{box_of, state_in, HasColumns};
ghost use Rattle.requests.specs.Found.{place_of, Within};

use collector::{State, Word};
use lent::MemoryUnit;

// The copy register, or an address, which may lie outside memory.
#[derive(Clone, Copy)]
pub enum Place {
    Copy,
    At(usize),
}

// Where index i of tuple h is. Of the tuple being moved, which is the collector's tuple in phase 5, 6 or 7, the words before index are behind
// dest already, and in phase 6 or 7 the word at index is in the copy register; every other word is behind h's address. No test asks what
// those before it on the same path have settled; that is M-101's, and so the tests stay a row of `if`s (docs/DECISIONS.md says what a `match` of
// the phase cost).
pub(crate) fn find_place(s: State, h: u32, i: u32, addresses: &[u32]) -> Place
    requires { (length addresses.now ≡ s.h) × (h < s.h) }
    ensures { (q : Registers) (ws : List ℕ) (fs : List Bool) (ss ls : List ℕ) (ms ds : List Bool) → place_of result ≡ place h i (boxed q ws fs addresses.now ss ls ms ds s) }
{
    let j = h as usize;
    let home = addresses[j] as usize + i as usize;
    let tuple = s.tuple;
    let index = s.index;
    let phase = s.phase;
    let dest = s.dest;
    if h != tuple {
        return Place::At(home);
    }
    if phase < 5 {
        return Place::At(home);
    }
    if 7 < phase {
        return Place::At(home);
    }
    if i < index {
        let moved = dest as usize + i as usize;
        return Place::At(moved);
    }
    if index < i {
        return Place::At(home);
    }
    if phase < 6 {
        return Place::At(home);
    }
    Place::Copy
}

// Whether a place is the copy register or an address below m.
#[tactic(auto, unfolding(rules::specs::Place::in_memory))]
pub(crate) fn in_memory(m: u32, p: Place) -> bool
    ensures tested { (b : Box) → b.m ≡ m → result ≡ in_memory (place_of p) b }
    ensures within { result ≡ true → Within p m }
{
    let words = m as usize;
    match p {
        Place::Copy => true,
        Place::At(a) => a < words,
    }
}

// The word at a place.
#[tactic(auto, unfolding(rules::specs::Place::read))]
pub(crate) fn read(unit: &MemoryUnit<'_>, p: Place) -> Word
    requires columns { HasColumns unit.now }
    requires within { Within p (state_in unit.now).m }
    ensures { word_of result ≡ read (place_of p) (box_of unit.now) }
{
    match p {
        Place::Copy => {
            let state = unit.state();
            Word {
                bits: state.copy,
                flag: state.copy_flag,
            }
        }
        Place::At(a) => Word {
            bits: unit.words[a],
            flag: unit.flags[a],
        },
    }
}
