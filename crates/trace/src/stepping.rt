// Single steps of a record, each with its answer as a line.
ghost use Rattle.std.specs.Prelude.{◌≡◌, ◌+◌, ◌*◌, ◌<◌, ◌≤◌, length};
ghost use Rattle.std.proofs.lemmas.List.Edits.{sets};
ghost use Rattle.rules.specs.Box.{reply, sound};
ghost use Rattle.rules.specs.Collector.{step};
ghost use Rattle.lent.specs.Lent.{box_of, SameReferences};
ghost use Rattle.pieces.specs.Text.{line};
ghost use Rattle.trace.specs.Stepped.{Stepped};

use lent::MemoryUnit;
use pieces::put_line;
use steps::stepped;

// One step of a box of which it is known whether it is sound, with its answer by the number that is printed.
#[tactic(auto, using(steps::proofs::Ruling::step_refused))]
fn one_step(unit: &mut MemoryUnit<'_>, right: bool) -> u32
    requires { sound (box_of unit.old) ≡ right }
    ensures same_references { SameReferences unit.old unit.new }
    ensures answered { reply (box_of unit.new) result ≡ step (box_of unit.old) }
{
    if right {
        return stepped(unit).number();
    }
    9
}

// As `put_line`: puts the digits of a and a line feed at `at`, and gives the place behind them. Nearly every step answers 30, whose
// characters are known.
fn put_answer(a: u32, out: &mut [u8], at: usize) -> usize
    requires { (a < 100) × (at + 3 ≤ length out.old) }
    ensures { (out.new ≡ sets out.old at (line a)) × (result ≡ at + length (line a)) }
{
    if a == 30 {
        out[at] = 51;
        out[at + 1] = 48;
        out[at + 2] = 10;
        return at + 3;
    }
    put_line(a, out, at)
}

// So many single steps of a box of which it is known whether it is sound. Each answer is a line of the output, from `at` on. Gives the
// place behind the last.
pub fn step_lines(
    unit: &mut MemoryUnit<'_>,
    right: bool,
    many: u32,
    out: &mut [u8],
    at: usize,
) -> usize
    requires { (sound (box_of unit.old) ≡ right) × (at + 3 * many ≤ length out.old) }
    ensures same_references { SameReferences unit.old unit.new }
    ensures stepped { Stepped many out.old out.new (box_of unit.old) (box_of unit.new) at result }
{
    let mut end = at;
    for _ in 0..many {
        let answer = one_step(unit, right);
        end = put_answer(answer, out, end);
    }
    end
}
