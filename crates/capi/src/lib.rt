// The C interface: the memory unit's calls, and in strings.rt the reader and the writer of records. Crate capi_c exports them: a C caller lends
// the state as three arrays and the seven columns (crate lent says what stands where). For the opening and a request the export makes the memory
// unit of them; a step and a run are lent the parts. A C caller sees to it that flags are 0 or 1, that the arrays have their lengths, and that no two
// of the lent parts overlap; whatever they hold is right.
#![tactic(auto)]

mod strings;

ghost use Rattle.lent.specs.Lent.{SameReferences};
ghost use Rattle.capi.specs.Promises.{parts, parts_of, Opens, Asks, Steps, Runs};

use lent::MemoryUnit;
pub use strings::{gloamish_read, gloamish_write};

// The answer to an unknown kind, or a 16-bit field above 65,535.
const NOT_UNDERSTOOD: u32 = 4294967295;

// Opens a box of m words and h entries, as `memory::open` does.
pub fn gloamish_open(unit: &mut MemoryUnit<'_>, m: u32, h: u32) -> u32
    ensures same_references { SameReferences unit.old unit.new }
    ensures answered { Opens m h (parts_of unit.old) (parts_of unit.new) result }
{
    memory::open(unit, m, h)
}

// One request: its kind's number and its fields in document 01's order. Answers as `memory::request` does; an unknown kind or a
// 16-bit field above 65,535 answers 4,294,967,295, and nothing is changed.
#[tactic(auto, unfolding(crate::specs::Calls::c_request, crate::specs::Calls::c_asked))]
pub fn gloamish_request(unit: &mut MemoryUnit<'_>, kind: u32, a: u32, b: u32, c: u32) -> u32
    ensures same_references { SameReferences unit.old unit.new }
    ensures answered { Asks kind a b c (parts_of unit.old) (parts_of unit.new) result }
{
    let Some(q) = record::request_of(kind, a, b, c) else {
        return NOT_UNDERSTOOD;
    };
    memory::request(unit, q)
}

// One step of the collector, as `memory::step` does it. It is lent the parts as C lends them, the hold's numbers only to be read: a unit would need
// them to be written.
#[inline(always)]
pub fn gloamish_step(
    numbers: &mut [u32; 22],
    switches: &mut [bool; 11],
    hold: &[u16; 3],
    words: &mut [u32],
    flags: &mut [bool],
    addresses: &mut [u32],
    sizes: &mut [u32],
    links: &mut [u32],
    marks: &mut [bool],
    deeps: &mut [bool],
) -> u32
    ensures { Steps (parts numbers.old switches.old hold.now words.old flags.old addresses.old sizes.old links.old marks.old deeps.old) (parts numbers.new switches.new hold.now words.new flags.new addresses.new sizes.new links.new marks.new deeps.new) result }
{
    memory::step_parts(
        numbers, switches, hold, words, flags, addresses, sizes, links, marks, deeps,
    )
}

// A run with a budget of steps, as `memory::run` does it, and lent the parts likewise. Gives steps * 256 + answer.
#[inline(always)]
#[tactic(auto, unfolding(crate::specs::Calls::c_run))]
pub fn gloamish_run(
    budget: u32,
    numbers: &mut [u32; 22],
    switches: &mut [bool; 11],
    hold: &[u16; 3],
    words: &mut [u32],
    flags: &mut [bool],
    addresses: &mut [u32],
    sizes: &mut [u32],
    links: &mut [u32],
    marks: &mut [bool],
    deeps: &mut [bool],
) -> u64
    ensures { Runs budget (parts numbers.old switches.old hold.now words.old flags.old addresses.old sizes.old links.old marks.old deeps.old) (parts numbers.new switches.new hold.now words.new flags.new addresses.new sizes.new links.new marks.new deeps.new) result }
{
    let done = memory::run_parts(
        budget, numbers, switches, hold, words, flags, addresses, sizes, links, marks, deeps,
    );
    u64::from(done.steps) * 256 + u64::from(done.answer)
}
