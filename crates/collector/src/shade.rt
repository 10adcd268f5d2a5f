// Shading: the write barrier, and how the collector marks.
ghost use Rattle.std.specs.Prelude.{Bool, true, List, [], ◌≡◌, ℕ, ◌<◌, length};
ghost use Rattle.rules.specs.Box.{is_entry};
ghost use Rattle.rules.specs.Parts.{Registers};
ghost use Rattle.collector.specs.Boxed.{blank, boxed};
ghost use Rattle.rules.specs.Place.{can_shade, shade};

use crate::state::State;

impl State {
    // Whether handle h can be looked up: it is 1 to H-1.
    pub fn is_entry(self, h: u32) -> bool
        ensures { (q : Registers) (ws : List ℕ) (fs : List Bool) (ads ss ls : List ℕ) (ms ds : List Bool) → result ≡ is_entry h (boxed q ws fs ads ss ls ms ds self) }
    {
        if h == 0 {
            return false;
        }
        h < self.h
    }

    // Whether tuple h can be shaded: it has an entry and, if it is unmarked, live + size + 1 stays within M.
    pub fn can_shade(self, h: u32, sizes: &[u32], marks: &[bool]) -> bool
        requires { (length sizes.now ≡ self.h) × (length marks.now ≡ self.h) }
        ensures { (q : Registers) (ws : List ℕ) (fs : List Bool) (ads ls : List ℕ) (ds : List Bool) → result ≡ can_shade h (boxed q ws fs ads sizes.now ls marks.now ds self) }
    {
        let entries = self.h;
        let live = self.live;
        let m = self.m;
        // The two tests of `is_entry`, each a way out like those behind them.
        if h == 0 {
            return false;
        }
        if entries <= h {
            return false;
        }
        let i = h as usize;
        if marks[i] {
            return true;
        }
        if m < live {
            return false;
        }
        sizes[i] < m - live
    }

    // Shades tuple h: unmarked, it is marked, counted in live and, if deep, put at the head of the next list. It has one way out, so that
    // the compiler keeps the state in registers.
    pub fn shade(
        mut self,
        h: u32,
        sizes: &[u32],
        links: &mut [u32],
        marks: &mut [bool],
        deeps: &[bool],
    ) -> State
        requires { (length sizes.now ≡ self.h) × (length links.old ≡ self.h) × (length marks.old ≡ self.h) × (length deeps.now ≡ self.h) × (self.m < 65536) × (can_shade h (boxed blank [] [] [] sizes.now [] marks.old [] self) ≡ true) }
        ensures { (q : Registers) (ws : List ℕ) (fs : List Bool) (ads : List ℕ) → boxed q ws fs ads sizes.now links.new marks.new deeps.now result ≡ shade h (boxed q ws fs ads sizes.now links.old marks.old deeps.now self) }
    {
        let i = h as usize;
        if !marks[i] {
            let next = self.next;
            let live = self.live;
            let size = sizes[i];
            marks[i] = true;
            self.live = live + size + 1;
            if deeps[i] {
                links[i] = next;
                self.next = h;
            }
        }
        self
    }
}
