// The registers in the lent arrays: numbers 14 to 21, and switches 0 to 7. On the two arrays, and not on the unit: the laws of a store are about
// these two lists.
ghost use Rattle.std.specs.Prelude.{List, ◌≡◌, ℕ, ◌<◌};
ghost use Rattle.collector.specs.Boxed.{word_of};
ghost use Rattle.lent.specs.Lent.{state_of, registers_of, register_in, put_in};

use collector::Word;

// What register r holds.
pub(crate) fn word_in(r: u16, numbers: &[u32; 22], switches: &[bool; 11]) -> Word
    requires { r < 8 }
    ensures { word_of result ≡ register_in r (registers_of numbers.now switches.now) }
{
    let i = r as usize;
    let at = i + 14;
    Word {
        bits: numbers[at],
        flag: switches[i],
    }
}

// Register r becomes a word.
pub(crate) fn put_word(r: u16, w: Word, numbers: &mut [u32; 22], switches: &mut [bool; 11])
    requires { r < 8 }
    ensures registers { registers_of numbers.new switches.new ≡ put_in r (word_of w) (registers_of numbers.old switches.old) }
    ensures state { (hd : List ℕ) → state_of numbers.new switches.new hd ≡ state_of numbers.old switches.old hd }
{
    let i = r as usize;
    let at = i + 14;
    numbers[at] = w.bits;
    switches[i] = w.flag;
}
