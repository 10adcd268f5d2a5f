// The opening: memory and directory cleared, the free list laid, and the state of a new box.
ghost use Rattle.std.specs.Prelude.{◌≡◌};
ghost use Rattle.rules.specs.Box.{reply};
ghost use Rattle.rules.specs.Open.{opening};
ghost use Rattle.lent.specs.Lent.{box_of, SameReferences, opened_numbers, opened_switches, opened_hold};

use crate::links::link_all;
use lent::MemoryUnit;

// Document 01's number for sizes that are out of range or not the lent lengths.
const WRONG_SIZES: u32 = 10;

// The state of a new box: registers data 0, the free list from 1, Rest, nothing held, and every other number 0. On the three arrays alone, which is
// all that it settles.
fn new_state(
    m: u32,
    h: u32,
    numbers: &mut [u32; 22],
    switches: &mut [bool; 11],
    hold: &mut [u16; 3],
)
    ensures { (numbers.new ≡ opened_numbers m h) × (switches.new ≡ opened_switches) × (hold.new ≡ opened_hold) }
{
    *numbers = [0; 22];
    *switches = [false; 11];
    *hold = [0; 3];
    numbers[0] = m;
    numbers[1] = h;
    numbers[3] = 1;
}

// Opens a box of m words and h entries. Answers 0; 10 where m or h is out of range or not the lent lengths, and then all is as it
// was found.
#[tactic(auto, unfolding(rules::specs::Open::opening))]
pub fn open(unit: &mut MemoryUnit<'_>, m: u32, h: u32) -> u32
    ensures same_references { SameReferences unit.old unit.new }
    ensures answered { reply (box_of unit.new) result ≡ opening m h (box_of unit.old) }
{
    if !unit.right_sizes(m, h) {
        return WRONG_SIZES;
    }
    unit.words.fill(0);
    unit.flags.fill(false);
    unit.addresses.fill(0);
    unit.sizes.fill(0);
    link_all(unit.links);
    unit.marks.fill(false);
    unit.deeps.fill(false);
    new_state(m, h, unit.numbers, unit.switches, unit.hold);
    0
}
