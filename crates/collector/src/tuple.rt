// A new tuple: the work of GETM, at once or at the end of a cycle.
ghost use Rattle.std.specs.Prelude.{Bool, not, cond, List, ◌≡◌, ℕ, ◌+◌, ◌*◌, ◌<◌, ◌≤◌, eqb, length};
ghost use Rattle.rules.specs.Parts.{Registers, with_top, with_free, with_live};
ghost use Rattle.rules.specs.Box.{pointer, put_register};
ghost use Rattle.collector.specs.Boxed.{boxed};
ghost use Rattle.rules.specs.Request.{no_room, can_make, new_tuple};

use crate::state::State;

// Two halves of 16 bits as one word: a handle above an offset, or above a tag.
pub fn packed(upper: u32, lower: u32) -> u32
    requires { (upper < 65536) × (lower < 65536) }
    ensures { result ≡ upper * 65536 + lower }
{
    upper * 65536 + lower
}

impl State {
    // Whether a new tuple of n words finds no room: no free handle, or top + n + 1 above M.
    pub fn no_room(self, n: u16) -> bool
        ensures { (q : Registers) (ws : List ℕ) (fs : List Bool) (ads ss ls : List ℕ) (ms ds : List Bool) → result ≡ no_room n (boxed q ws fs ads ss ls ms ds self) }
    {
        let size = n as u32;
        let free = self.free;
        let top = self.top;
        let m = self.m;
        if free == 0 {
            return true;
        }
        if m < top {
            return true;
        }
        m - top <= size
    }

    // Whether a new tuple of n words that finds room can be made: its handle can be looked up, and outside Rest live + n + 1 is
    // not above M.
    pub fn can_make(self, n: u16) -> bool
        ensures { (q : Registers) (ws : List ℕ) (fs : List Bool) (ads ss ls : List ℕ) (ms ds : List Bool) → result ≡ can_make n (boxed q ws fs ads ss ls ms ds self) }
    {
        let size = n as u32;
        let free = self.free;
        let entries = self.h;
        let phase = self.phase;
        let live = self.live;
        let m = self.m;
        if free == 0 {
            return false;
        }
        if entries <= free {
            return false;
        }
        if phase == 0 {
            return true;
        }
        if m < live {
            return false;
        }
        size < m - live
    }

    // The state when a tuple of n words has been made: link heads the free list, top grows by n + 1, and outside Rest live
    // does.
    fn take_room(mut self, n: u16, link: u32) -> State
        requires { (self.top + n + 1 ≤ self.m) × ((self.phase ≡ 0 → ⊥) → self.live + n + 1 ≤ self.m) × (self.m < 65536) }
        ensures { (q : Registers) (ws : List ℕ) (fs : List Bool) (ads ss ls : List ℕ) (ms ds : List Bool) → boxed q ws fs ads ss ls ms ds result ≡ with_free link (with_top (self.top + n + 1) (with_live (cond (not (eqb self.phase 0)) (self.live + n + 1) self.live) (boxed q ws fs ads ss ls ms ds self))) }
    {
        let words = n as u32;
        let phase = self.phase;
        let live = self.live;
        self.free = link;
        self.top = self.top + words + 1;
        if phase == 0 {
            return self;
        }
        self.live = live + words + 1;
        self
    }

    // Makes a tuple of n words: the first free handle, at top, its control word written and nothing else. In Rest it is unmarked,
    // in any other phase it is marked and counted in live. The register that is to point to it is left to the caller.
    pub fn new_tuple(
        self,
        n: u16,
        tag: u16,
        words: &mut [u32],
        flags: &mut [bool],
        addresses: &mut [u32],
        sizes: &mut [u32],
        links: &[u32],
        marks: &mut [bool],
        deeps: &mut [bool],
    ) -> State
        requires { (length words.old ≡ self.m) × (length flags.old ≡ self.m) × (length addresses.old ≡ self.h) × (length sizes.old ≡ self.h) × (length links.now ≡ self.h) × (length marks.old ≡ self.h) × (length deeps.old ≡ self.h) × (self.m < 65536) × (self.h ≤ 4096) × (self.free < self.h) × (self.top + n + 1 ≤ self.m) × ((self.phase ≡ 0 → ⊥) → self.live + n + 1 ≤ self.m) }
        ensures { (q : Registers) (r : ℕ) → put_register r (pointer self.free 0) (boxed q words.new flags.new addresses.new sizes.new links.now marks.new deeps.new result) ≡ new_tuple r n tag (boxed q words.old flags.old addresses.old sizes.old links.now marks.old deeps.old self) }
    {
        let handle = self.free;
        let top = self.top;
        let phase = self.phase;
        let i = handle as usize;
        let at = top as usize;
        let link = links[i];
        let control = packed(handle, tag as u32);
        words[at] = control;
        flags[at] = false;
        addresses[i] = top;
        sizes[i] = n as u32;
        marks[i] = phase != 0;
        deeps[i] = false;
        self.take_room(n, link)
    }
}
