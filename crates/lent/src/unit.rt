// The memory unit as a call is lent it. A function takes it whole, so its promise is one equation of boxes.
ghost use Rattle.std.specs.Prelude.{◌≡◌, ◌<◌};
ghost use Rattle.rules.specs.Box.{register, put_register};
ghost use Rattle.collector.specs.Boxed.{word_of};
ghost use Rattle.lent.specs.Lent.{box_of, box_with, state_in, Keeps, SameReferences};

use crate::arrays::{put_lists, put_room, put_switches, put_walk, taken};
use crate::registers::{put_word, word_in};
use collector::{State, Word};

// Its state as three arrays, and its columns: M words and their flags, and of H entries the address, the size, the list link, the mark and the
// deep flag. Whatever they hold, and however long the columns are, is a memory unit. The columns lie side by side, and the state is numbers in
// arrays, since that is what C lends; and a unit with a length in its type would refuse what a call has to answer.
#[derive(Drop)]
pub struct MemoryUnit<'a> {
    // M, H, top, free, phase, live, current, next, src, dest, tuple, size, index and copy; and from 14 on the registers.
    pub numbers: &'a mut [u32; 22],
    // Whether each register is a pointer; and then the copy's flag, held and begun.
    pub switches: &'a mut [bool; 11],
    // What the held request asks for: register, size and tag.
    pub hold: &'a mut [u16; 3],
    pub words: &'a mut [u32],
    pub flags: &'a mut [bool],
    pub addresses: &'a mut [u32],
    pub sizes: &'a mut [u32],
    pub links: &'a mut [u32],
    pub marks: &'a mut [bool],
    pub deeps: &'a mut [bool],
}

impl MemoryUnit<'_> {
    // The struct that the collector's rules take.
    #[inline(always)]
    pub fn state(&self) -> State
        ensures { result ≡ state_in self.now }
    {
        taken(self.numbers, self.switches, self.hold)
    }

    // Puts back what a rule left of the struct that was taken out.
    #[inline(always)]
    pub fn put_back(&mut self, before: State, after: State)
        requires taken { before ≡ state_in self.old }
        requires kept { Keeps before after }
        ensures same_references { SameReferences self.old self.new }
        ensures put_back { box_of self.new ≡ box_with self.old after }
    {
        put_room(self.numbers, before, after);
        put_lists(self.numbers, before, after);
        put_walk(self.numbers, before, after);
        put_switches(self.switches, before, after);
    }

    // What register r holds.
    #[inline(always)]
    pub fn register(&self, r: u16) -> Word
        requires { r < 8 }
        ensures { word_of result ≡ register r (box_of self.now) }
    {
        word_in(r, self.numbers, self.switches)
    }

    // Register r becomes a word.
    #[inline(always)]
    pub fn put_register(&mut self, r: u16, w: Word)
        requires { r < 8 }
        ensures same_references { SameReferences self.old self.new }
        ensures written { box_of self.new ≡ put_register r (word_of w) (box_of self.old) }
    {
        put_word(r, w, self.numbers, self.switches);
    }
}
