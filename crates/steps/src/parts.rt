// A step and a run for a caller that is lent the ten parts one by one, and the hold's numbers only to be read, as C lends them. The unit is made
// here, with a copy of those three numbers: they stay as they are (`held`, the clause of `step` and of `run`).
ghost use Rattle.std.specs.Prelude.{◌≡◌};
ghost use Rattle.rules.specs.Box.{reply};
ghost use Rattle.rules.specs.Collector.{step};
ghost use Rattle.rules.specs.Run.{ran, run};
ghost use Rattle.lent.specs.Lent.{lent};

use crate::running::{Ran, run};
use crate::stepping::step;
use lent::MemoryUnit;

// One step of the collector, as `step` does it.
#[inline(always)]
pub fn step_parts(
    numbers: &mut [u32; 22],
    switches: &mut [bool; 11],
    hold: &[u16; 3],
    words: &mut [u32],
    flags: &mut [bool],
    addresses: &mut [u32],
    sizes: &mut [u32],
    links: &mut [u32],
    marks: &mut [bool],
    deeps: &mut [bool],
) -> u32
    ensures { reply (lent numbers.new switches.new hold.now words.new flags.new addresses.new sizes.new links.new marks.new deeps.new) result ≡ step (lent numbers.old switches.old hold.now words.old flags.old addresses.old sizes.old links.old marks.old deeps.old) }
{
    let mut held = *hold;
    let mut unit = MemoryUnit {
        numbers,
        switches,
        hold: &mut held,
        words,
        flags,
        addresses,
        sizes,
        links,
        marks,
        deeps,
    };
    step(&mut unit)
}

// A run with a budget of steps, as `run` does it.
#[inline(always)]
pub fn run_parts(
    budget: u32,
    numbers: &mut [u32; 22],
    switches: &mut [bool; 11],
    hold: &[u16; 3],
    words: &mut [u32],
    flags: &mut [bool],
    addresses: &mut [u32],
    sizes: &mut [u32],
    links: &mut [u32],
    marks: &mut [bool],
    deeps: &mut [bool],
) -> Ran
    ensures { ran (lent numbers.new switches.new hold.now words.new flags.new addresses.new sizes.new links.new marks.new deeps.new) result.answer result.steps ≡ run budget (lent numbers.old switches.old hold.now words.old flags.old addresses.old sizes.old links.old marks.old deeps.old) }
{
    let mut held = *hold;
    let mut unit = MemoryUnit {
        numbers,
        switches,
        hold: &mut held,
        words,
        flags,
        addresses,
        sizes,
        links,
        marks,
        deeps,
    };
    run(&mut unit, budget)
}
