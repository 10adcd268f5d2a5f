// The opening, on columns that may be longer than the box.
ghost use Rattle.std.specs.Prelude.{◌≡◌};
ghost use Rattle.rules.specs.Box.{reply};
ghost use Rattle.rules.specs.Open.{opening};
ghost use Rattle.lent.specs.Lent.{box_of, lent, SameReferences};
ghost use Rattle.turns.specs.Parts.{Opens};

use lent::MemoryUnit;
use memory::open;

// Opens the memory unit of these parts. The ten of them are parameters here, and a struct only inside: a struct of slices of another one's
// columns, made where these are sliced, is a form that the borrow checker does not cover.
fn open_parts(
    numbers: &mut [u32; 22],
    switches: &mut [bool; 11],
    hold: &mut [u16; 3],
    words: &mut [u32],
    flags: &mut [bool],
    addresses: &mut [u32],
    sizes: &mut [u32],
    links: &mut [u32],
    marks: &mut [bool],
    deeps: &mut [bool],
    m: u32,
    h: u32,
) -> u32
    ensures { reply (lent numbers.new switches.new hold.new words.new flags.new addresses.new sizes.new links.new marks.new deeps.new) result ≡ opening m h (lent numbers.old switches.old hold.old words.old flags.old addresses.old sizes.old links.old marks.old deeps.old) }
{
    let mut unit = MemoryUnit {
        numbers,
        switches,
        hold,
        words,
        flags,
        addresses,
        sizes,
        links,
        marks,
        deeps,
    };
    open(&mut unit, m, h)
}

// Opens a box of m words and h entries in the first part of the columns. Answers 0; 10 where m or h is out of range or a column is too
// short, and then all is as it was found. The seven lengths stand here and where player plays on: a function that hands seven lengths on
// would be no plainer.
pub fn open_first(unit: &mut MemoryUnit<'_>, m: u32, h: u32) -> u32
    ensures same_references { SameReferences unit.old unit.new }
    ensures opens { Opens m h (box_of unit.old) (box_of unit.new) result }
{
    let ms = m as usize;
    let hs = h as usize;
    let words = ms.min(unit.words.len());
    let flags = ms.min(unit.flags.len());
    let addresses = hs.min(unit.addresses.len());
    let sizes = hs.min(unit.sizes.len());
    let links = hs.min(unit.links.len());
    let marks = hs.min(unit.marks.len());
    let deeps = hs.min(unit.deeps.len());
    open_parts(
        unit.numbers,
        unit.switches,
        unit.hold,
        &mut unit.words[..words],
        &mut unit.flags[..flags],
        &mut unit.addresses[..addresses],
        &mut unit.sizes[..sizes],
        &mut unit.links[..links],
        &mut unit.marks[..marks],
        &mut unit.deeps[..deeps],
        m,
        h,
    )
}
