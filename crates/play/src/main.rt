// Plays a record: reads it from standard input to its end, in pieces, and prints each answer in decimal, one a line. A string that is
// refused prints the refusal as its last line. What is read and what is printed is the operating system's; all between is `player::play`,
// whose promise says it all. The box's columns are as large as the largest box.
#![tactic(auto)]

ghost use Rattle.std.specs.Prelude.{◌≡◌, ◌+◌, ◌-◌, ◌<◌, ◌≤◌, length, take, drop, IsTrue, IsFalse, IfOk, IfSome, IsNone, OnOk, OnErr, ◌↔◌};
ghost use Rattle.std.specs.Io.KnownBytes.{Appends, Consumes, IsAtEnd, Keeps};
ghost use Rattle.lent.specs.Lent.{box_of, SameReferences};
ghost use Rattle.player.specs.Promises.{Plays};
ghost use Rattle.play.specs.declared.Reader.{Reader};
ghost use Rattle.play.specs.Hand.{at_hand, Within, AtFront, Fed};

use lent::MemoryUnit;
use player::Place;
use std::io;
use std::io::{Read, Write};

// Where the playing stands; the bytes at hand, from one place of the input to another; whether they are the last; how many bytes of the
// output were written; and whether more bytes are wanted. The input is one array for the whole run, as nothing here is on a heap, so the
// bytes at hand are named by their two places in it.
#[derive(Clone, Copy)]
struct Reader {
    place: Place,
    from: usize,
    till: usize,
    last: bool,
    written: usize,
    wants: bool,
}

// Moves the bytes at hand to the front.
fn to_front(input: &mut [u8], from: usize, till: usize)
    requires { (from ≤ till) × (till ≤ length input.old) }
    ensures { take (till - from) input.new ≡ take (till - from) (drop from input.old) }
{
    input.copy_within(from..till, 0);
}

// Reads behind the first n bytes, and gives how many came. A read that fails leaves them too.
fn read_behind<R: Read>(source: &mut R, input: &mut [u8], n: usize) -> io::Result<usize>
    requires { n ≤ length input.old }
    ensures within { IfOk result (λ got. n + got ≤ length input.new) }
    ensures kept { take n input.new ≡ take n input.old }
    ensures came { IfOk result (λ got. Consumes (R.remaining source.old) (R.remaining source.new) (take got (drop n input.new))) }
    ensures ended { IfOk result (λ got. got ≡ 0 → n < length input.old → IsAtEnd (R.remaining source.new)) }
    ensures none_lost { OnErr result (Keeps (R.remaining source.old) (R.remaining source.new)) }
{
    source.read(&mut input[n..])
}

// The bytes at hand, and more behind them. Where none come they are the last.
fn more<R: Read>(source: &mut R, r: Reader, input: &mut [u8; 65536]) -> io::Result<Reader>
    requires { Within r 65536 }
    ensures ok { IfOk result (λ s. Fed r s input.old input.new) }
    ensures came { IfOk result (λ s. Consumes (R.remaining source.old) (R.remaining source.new) (drop (length (at_hand r input.old)) (at_hand s input.new))) }
    ensures last { IfOk result (λ s. at_hand s input.new ≡ at_hand r input.old → IsTrue s.last) }
    ensures err { OnErr result (AtFront r input.old input.new) }
{
    to_front(input, r.from, r.till);
    let n = r.till - r.from;
    let got = read_behind(source, input, n)?;
    Ok(Reader {
        from: 0,
        till: n + got,
        last: got == 0,
        written: 0,
        wants: false,
        ..r
    })
}

// More bytes where they are wanted.
fn fed<R: Read>(source: &mut R, r: Reader, input: &mut [u8; 65536]) -> io::Result<Reader>
    requires { Within r 65536 }
    ensures ok { IfOk result (λ s. Fed r s input.old input.new) }
    ensures came { IfOk result (λ s. Consumes (R.remaining source.old) (R.remaining source.new) (drop (length (at_hand r input.old)) (at_hand s input.new))) }
    ensures last { IsTrue r.wants → IfOk result (λ s. at_hand s input.new ≡ at_hand r input.old → IsTrue s.last) }
    ensures as_it_was { IsFalse r.wants → (result ≡ Ok r) × (input.new ≡ input.old) }
    ensures err { OnErr result (AtFront r input.old input.new) }
{
    if r.wants {
        return more(source, r, input);
    }
    Ok(r)
}

// Prints the first n bytes. Whether there are so many. Where a write fails, some of them may be printed.
fn print<W: Write>(sink: &mut W, out: &[u8], n: usize) -> io::Result<bool>
    ensures room { IfOk result (λ printed. IsTrue printed ↔ (n ≤ length out.now)) }
    ensures printed { OnOk result (n ≤ length out.now → Appends (W.contents sink.old) (W.contents sink.new) (take n out.now)) }
{
    if out.len() < n {
        return Ok(false);
    }
    sink.write_all(&out[..n])?;
    Ok(true)
}

// Whether there is something left to do: not after the last bytes where they give nothing more, and not where less was printed than was written.
fn goes_on(printed: bool, wants: bool, last: bool) -> bool
    ensures { IsTrue result ↔ (IsTrue printed × (IsTrue wants → IsFalse last)) }
{
    printed && !(wants && last)
}

// Plays the bytes at hand.
fn play_some(unit: &mut MemoryUnit<'_>, r: Reader, input: &[u8], out: &mut [u8]) -> Reader
    requires { Within r (length input.now) }
    ensures same_references { SameReferences unit.old unit.new }
    ensures played { (result.last ≡ r.last) × Within result (length input.now) × Plays r.last r.place (at_hand r input.now) out.old out.new (box_of unit.old) (box_of unit.new) result.place (result.from - r.from) result.written result.wants }
{
    let went = player::play(unit, r.last, r.place, &input[r.from..r.till], out);
    Reader {
        place: went.place,
        from: r.from + went.used,
        written: went.written,
        wants: went.waits,
        ..r
    }
}

// Reads where more bytes are wanted, and plays.
fn turn<R: Read>(
    unit: &mut MemoryUnit<'_>,
    source: &mut R,
    r: Reader,
    input: &mut [u8; 65536],
    out: &mut [u8; 65536],
) -> io::Result<Reader>
    requires { Within r 65536 }
    ensures same_references { SameReferences unit.old unit.new }
    ensures ok { IfOk result (λ t. Within t 65536) }
    ensures played { IfOk result (λ t. (s : Reader) × Fed r s input.old input.new × Plays s.last s.place (at_hand s input.new) out.old out.new (box_of unit.old) (box_of unit.new) t.place (t.from - s.from) t.written t.wants × Consumes (R.remaining source.old) (R.remaining source.new) (drop (length (at_hand r input.old)) (at_hand s input.new))) }
    ensures err { OnErr result (AtFront r input.old input.new) }
    ensures not_played { OnErr result ((out.new ≡ out.old) × (box_of unit.new ≡ box_of unit.old)) }
{
    let s = fed(source, r, input)?;
    Ok(play_some(unit, s, input, out))
}

// Where the next turn begins: where this one ended, or nowhere, so that the loop ends where the playing does and nowhere else.
fn next_turn(r: Reader, printed: bool) -> Option<Reader>
    ensures goes_on { IfSome result (λ s. (s ≡ r) × IsTrue printed × (IsTrue r.wants → IsFalse r.last)) }
    ensures ends { IsNone result → IsTrue printed → (IsTrue r.wants × IsTrue r.last) }
{
    if goes_on(printed, r.wants, r.last) {
        return Some(r);
    }
    None
}

fn main(rt: HostRuntime) -> io::Result<()> {
    let mut stdin = rt.stdin();
    let mut stdout = rt.stdout();
    let mut input = [0u8; 65536];
    let mut out = [0u8; 65536];
    let mut unit = MemoryUnit {
        numbers: &mut [0; 22],
        switches: &mut [false; 11],
        hold: &mut [0; 3],
        words: &mut [0; 8192],
        flags: &mut [false; 8192],
        addresses: &mut [0; 1024],
        sizes: &mut [0; 1024],
        links: &mut [0; 1024],
        marks: &mut [false; 1024],
        deeps: &mut [false; 1024],
    };
    let mut r = Reader {
        place: Place {
            stage: 0,
            count: 0,
            left: 0,
            opened: false,
        },
        from: 0,
        till: 0,
        last: false,
        written: 0,
        wants: true,
    };
    // A proved loop has to end, and nothing says that the input does. So turns are counted, up to a number that no run comes to.
    for _ in 0..u64::MAX {
        let played = turn(&mut unit, &mut stdin, r, &mut input, &mut out)?;
        let printed = print(&mut stdout, &out, played.written)?;
        let Some(next) = next_turn(played, printed) else {
            break;
        };
        r = next;
    }
    Ok(())
}
