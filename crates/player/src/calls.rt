// Playing a record in pieces: the public call.
ghost use Rattle.std.specs.Prelude.{◌≡◌, ◌<◌, ◌≤◌, length, drop};
ghost use Rattle.lent.specs.Lent.{box_of, lent, SameReferences};
ghost use Rattle.pieces.specs.Pieces.{begun_at, begin_piece, play_piece, first_of};
ghost use Rattle.record.specs.Found.{number_of};
ghost use Rattle.turns.specs.Outcome.{leaves, outcome};
ghost use Rattle.player.specs.Promises.{Refuses, Says, PlaysPart, ComesTo, Plays};

use lent::MemoryUnit;
use pieces::{Place, put_line};
use record::{Fault, head_of};
use turns::{Went, open_first, play_on};

// Where the playing stands after the opening.
fn place_after(answer: u32) -> Place
    ensures { result ≡ begun_at answer }
{
    let opened = answer == 0;
    Place {
        stage: if opened { 1 } else { 2 },
        count: 0,
        left: 0,
        opened,
    }
}

// The refusal of a start is printed, and it is the last line.
fn say_refused(a: u32, place: Place, out: &mut [u8]) -> Went
    requires { (a < 100) × (3 ≤ length out.old) }
    ensures { Says a out.old out.new place result.place result.used result.written result.waits }
{
    let written = put_line(a, out, 0);
    Went {
        place: Place {
            stage: 4,
            left: 0,
            opened: false,
            ..place
        },
        used: 0,
        written,
        waits: false,
    }
}

// The reader refuses the start. Where it is only cut, more bytes may make it whole, unless these are the last.
fn refuse_start(last: bool, fault: Fault, place: Place, out: &mut [u8]) -> Went
    requires { (place.stage ≡ 0) × (3 ≤ length out.old) }
    ensures { Refuses last (number_of fault) out.old out.new place result.place result.used result.written result.waits }
{
    if fault == Fault::Cut && !last {
        return Went {
            place,
            used: 0,
            written: 0,
            waits: true,
        };
    }
    say_refused(fault.number(), place, out)
}

// The start: edition, M and H, and the opening.
fn begin(unit: &mut MemoryUnit<'_>, last: bool, place: Place, input: &[u8], out: &mut [u8]) -> Went
    requires { place.stage ≡ 0 }
    ensures same_references { SameReferences unit.old unit.new }
    ensures begun { ComesTo input.now out.old out.new (box_of unit.old) (box_of unit.new) result.place result.used result.written result.waits (begin_piece last (length out.old) place input.now (box_of unit.old)) }
{
    if out.len() < 3 {
        return Went {
            place,
            used: 0,
            written: 0,
            waits: false,
        };
    }
    let e = match head_of(input) {
        Ok(e) => e,
        Err(fault) => return refuse_start(last, fault, place, out),
    };
    let answer = open_first(unit, e.a, e.b);
    let written = put_line(answer, out, 0);
    Went {
        place: place_after(answer),
        used: e.next,
        written,
        waits: false,
    }
}

// Plays on in the memory unit of these parts. They are parameters here, and a struct only inside, for the reason that `open_parts` of crate
// turns gives.
fn play_parts(
    numbers: &mut [u32; 22],
    switches: &mut [bool; 11],
    hold: &mut [u16; 3],
    words: &mut [u32],
    flags: &mut [bool],
    addresses: &mut [u32],
    sizes: &mut [u32],
    links: &mut [u32],
    marks: &mut [bool],
    deeps: &mut [bool],
    last: bool,
    place: Place,
    input: &[u8],
    out: &mut [u8],
) -> Went
    ensures { (result.used ≤ length input.now) × (leaves out.new result.written (lent numbers.new switches.new hold.new words.new flags.new addresses.new sizes.new links.new marks.new deeps.new) result.place (drop result.used input.now) result.waits ≡ outcome out.old 0 (play_piece last (length out.old) place input.now (lent numbers.old switches.old hold.old words.old flags.old addresses.old sizes.old links.old marks.old deeps.old))) }
{
    let mut unit = MemoryUnit {
        numbers,
        switches,
        hold,
        words,
        flags,
        addresses,
        sizes,
        links,
        marks,
        deeps,
    };
    play_on(&mut unit, last, place, input, out)
}

// Plays on in the box that was opened, which may be a part of the columns.
fn play_part(
    unit: &mut MemoryUnit<'_>,
    last: bool,
    place: Place,
    input: &[u8],
    out: &mut [u8],
) -> Went
    requires { 0 < place.stage }
    ensures same_references { SameReferences unit.old unit.new }
    ensures played { PlaysPart input.now out.old out.new (box_of unit.old) (box_of unit.new) result.place result.used result.written result.waits (play_piece last (length out.old) place input.now (first_of (box_of unit.old).m (box_of unit.old).h (box_of unit.old))) }
{
    let m = unit.numbers[0] as usize;
    let h = unit.numbers[1] as usize;
    let words = m.min(unit.words.len());
    let flags = m.min(unit.flags.len());
    let addresses = h.min(unit.addresses.len());
    let sizes = h.min(unit.sizes.len());
    let links = h.min(unit.links.len());
    let marks = h.min(unit.marks.len());
    let deeps = h.min(unit.deeps.len());
    play_parts(
        unit.numbers,
        unit.switches,
        unit.hold,
        &mut unit.words[..words],
        &mut unit.flags[..flags],
        &mut unit.addresses[..addresses],
        &mut unit.sizes[..sizes],
        &mut unit.links[..links],
        &mut unit.marks[..marks],
        &mut unit.deeps[..deeps],
        last,
        place,
        input,
        out,
    )
}

// Plays the bytes at hand as far as they go and the output has room. `last` says that no more bytes come; `place` is where the playing
// stands, at first all 0 and false. Each answer is a line of `out`; what is used of `input` is not to be given again. Nothing is required of
// the caller: whatever is lent, the call does what the definitions say. For that the place's stage is a number: what is promised holds of
// every one.
pub fn play(
    unit: &mut MemoryUnit<'_>,
    last: bool,
    place: Place,
    input: &[u8],
    out: &mut [u8],
) -> Went
    ensures same_references { SameReferences unit.old unit.new }
    ensures plays { Plays last place input.now out.old out.new (box_of unit.old) (box_of unit.new) result.place result.used result.written result.waits }
{
    if place.stage == 0 {
        return begin(unit, last, place, input, out);
    }
    let opened = place.opened;
    if opened {
        return play_part(unit, last, place, input, out);
    }
    play_on(unit, last, place, input, out)
}
