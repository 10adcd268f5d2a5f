// A piece of a record, played on the lent parts.
ghost use Rattle.std.specs.Prelude.{◌≡◌, ℕ, ◌+◌, ◌*◌, ◌<◌, ◌≤◌, Bool, List, length, drop, IfSome, IsNone};
ghost use Rattle.std.proofs.lemmas.List.Edits.{sets};
ghost use Rattle.rules.specs.Parts.{Box};
ghost use Rattle.rules.specs.Box.{reply, sound};
ghost use Rattle.lent.specs.Lent.{box_of, SameReferences};
ghost use Rattle.pieces.specs.declared.place.Deed.TheVariants.{Step};
ghost use Rattle.pieces.specs.Text.{text};
ghost use Rattle.pieces.specs.Pieces.{carry_out, printed, play_piece};
ghost use Rattle.turns.specs.Outcome.{leaves, outcome, Turned, Rests};

use lent::MemoryUnit;
use pieces::{Deed, Place, next_move, put_line};
use requests::requested;
use trace::step_lines;

// How many characters a line has at most: an answer is below 100.
const LINE_ROOM: usize = 3;

// What a piece left: where the playing stands, how many bytes of the input were used and of the output written, and whether nothing can
// be done with the bytes that are left. No `Option`: whether it waits or not, all four mean something.
#[derive(Clone, Copy)]
pub struct Went {
    pub place: Place,
    pub used: usize,
    pub written: usize,
    pub waits: bool,
}

// How far a piece was played by some of its turns.
#[derive(Clone, Copy)]
struct Progress {
    place: Place,
    used: usize,
    written: usize,
}

// Does a deed other than a step on a box of which it is known whether it is sound, and gives the answer, a number that may be printed; 0 where
// there is none, as the definition has it.
fn carry_out(unit: &mut MemoryUnit<'_>, right: bool, deed: Deed) -> u32
    requires { (sound (box_of unit.old) ≡ right) × (deed ≡ Step → ⊥) }
    ensures same_references { SameReferences unit.old unit.new }
    ensures answered { reply (box_of unit.new) result ≡ carry_out deed (box_of unit.old) }
{
    match deed {
        Deed::Say(a) => a,
        Deed::Ask(q) => requested(unit, right, q),
        Deed::Step | Deed::Silent => 0,
    }
}

// Prints the answer to a deed, if it has one, and gives the place behind it.
fn print(deed: Deed, a: u32, out: &mut [u8], at: usize) -> usize
    requires { (a < 100) × (at + 3 ≤ length out.old) }
    ensures { (out.new ≡ sets out.old at (text (printed deed a))) × (result ≡ at + length (text (printed deed a))) }
{
    match deed {
        Deed::Silent => at,
        _ => put_line(a, out, at),
    }
}

// The next thing to do is done, where there is one; no steps are left to be done. The output has room for a line.
fn take_deed(
    unit: &mut MemoryUnit<'_>,
    right: bool,
    last: bool,
    from: Progress,
    input: &[u8],
    out: &mut [u8],
) -> Option<Progress>
    requires { (from.used ≤ length input.now) × (from.written + 3 ≤ length out.old) × (from.place.left ≡ 0) × (sound (box_of unit.old) ≡ right) }
    ensures same_references { SameReferences unit.old unit.new }
    ensures turned { IfSome result (λ to. Turned last input.now out.old out.new (box_of unit.old) (box_of unit.new) from.place to.place from.used to.used from.written to.written) }
    ensures rests { IsNone result → (Rests last input.now out.old (box_of unit.old) from.place from.used from.written) × (out.new ≡ out.old) × (box_of unit.new ≡ box_of unit.old) }
{
    let Some(m) = next_move(last, from.place, input, from.used) else {
        return None;
    };
    let a = carry_out(unit, right, m.deed);
    let behind = print(m.deed, a, out, from.written);
    Some(Progress {
        place: m.place,
        used: m.next,
        written: behind,
    })
}

// As many as n, but no more than there is room for a line of each.
fn at_most(n: u32, room: usize) -> u32
    ensures { (result ≤ n) × (3 * result ≤ room) × (0 < n → 3 ≤ room → 0 < result) }
{
    (n as usize).min(room / LINE_ROOM) as u32
}

// Single steps are done, as many as are left and the output has room for.
fn take_steps(unit: &mut MemoryUnit<'_>, right: bool, from: Progress, out: &mut [u8]) -> Progress
    requires { (from.written + 3 ≤ length out.old) × (from.place.stage < 3) × (0 < from.place.left) × (sound (box_of unit.old) ≡ right) }
    ensures same_references { SameReferences unit.old unit.new }
    ensures turned { (last : Bool) (bs : List ℕ) → from.used ≤ length bs → Turned last bs out.old out.new (box_of unit.old) (box_of unit.new) from.place result.place from.used result.used from.written result.written }
{
    let place = from.place;
    let left = place.left;
    let many = at_most(left, out.len() - from.written);
    let behind = step_lines(unit, right, many, out, from.written);
    Progress {
        place: Place {
            left: left - many,
            ..place
        },
        written: behind,
        ..from
    }
}

// After the end, and after a refusal: bytes behind the end are refused, and there is nothing else to do. The output has room for a line. As
// `pieces::next_move` says it of these stages, but without a move made of it, which would be no plainer.
fn take_end(from: Progress, input: &[u8], out: &mut [u8]) -> Option<Progress>
    requires { (from.used ≤ length input.now) × (from.written + 3 ≤ length out.old) × (3 ≤ from.place.stage) }
    ensures turned { (last : Bool) (b : Box) → IfSome result (λ to. Turned last input.now out.old out.new b b from.place to.place from.used to.used from.written to.written) }
    ensures rests { (last : Bool) (b : Box) → IsNone result → (Rests last input.now out.old b from.place from.used from.written) × (out.new ≡ out.old) }
{
    let place = from.place;
    if place.stage == 3 && from.used < input.len() {
        // Document 02's number, which is printed.
        let behind = put_line(24, out, from.written);
        return Some(Progress {
            place: Place {
                stage: 4,
                left: 0,
                ..place
            },
            written: behind,
            ..from
        });
    }
    None
}

// The steps that are left are done, or the next record, where there is something to do and the output has room for a line. `right` and `last`
// go along as they are: both are known once for all turns, and mean nothing together.
fn take_turn(
    unit: &mut MemoryUnit<'_>,
    right: bool,
    last: bool,
    from: Progress,
    input: &[u8],
    out: &mut [u8],
) -> Option<Progress>
    requires { (from.used ≤ length input.now) × (from.written ≤ length out.old) × (sound (box_of unit.old) ≡ right) }
    ensures same_references { SameReferences unit.old unit.new }
    ensures turned { IfSome result (λ to. Turned last input.now out.old out.new (box_of unit.old) (box_of unit.new) from.place to.place from.used to.used from.written to.written) }
    ensures rests { IsNone result → (Rests last input.now out.old (box_of unit.old) from.place from.used from.written) × (out.new ≡ out.old) × (box_of unit.new ≡ box_of unit.old) }
{
    if out.len() - from.written < LINE_ROOM {
        return None;
    }
    let place = from.place;
    if place.left == 0 {
        return take_deed(unit, right, last, from, input, out);
    }
    if place.stage < 3 {
        return Some(take_steps(unit, right, from, out));
    }
    take_end(from, input, out)
}

// Plays records as long as the bytes at hand have one whole and the output has room for a line. The box is open, or its opening was refused.
pub fn play_on(
    unit: &mut MemoryUnit<'_>,
    last: bool,
    place: Place,
    input: &[u8],
    out: &mut [u8],
) -> Went
    ensures same_references { SameReferences unit.old unit.new }
    ensures played { (result.used ≤ length input.now) × (leaves out.new result.written (box_of unit.new) result.place (drop result.used input.now) result.waits ≡ outcome out.old 0 (play_piece last (length out.old) place input.now (box_of unit.old))) }
{
    let right = unit.is_sound();
    // The place's fields apart, and not the place: with a struct carried from turn to turn playing took 3 to 12 percent longer (docs/PERFORMANCE.md).
    let mut opened = place.opened;
    let mut stage = place.stage;
    let mut count = place.count;
    let mut left = place.left;
    let mut used: usize = 0;
    let mut written: usize = 0;
    // By turns, each of as many steps or bytes as it takes.
    while let Some(to) = take_turn(
        unit,
        right,
        last,
        Progress {
            place: Place {
                stage,
                count,
                left,
                opened,
            },
            used,
            written,
        },
        input,
        out,
    ) {
        let stands = to.place;
        stage = stands.stage;
        count = stands.count;
        left = stands.left;
        opened = stands.opened;
        used = to.used;
        written = to.written;
    }
    // Where there is room for a line it was bytes that were missing.
    Went {
        place: Place {
            stage,
            count,
            left,
            opened,
        },
        used,
        written,
        waits: LINE_ROOM <= out.len() - written,
    }
}
