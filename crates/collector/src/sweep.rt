// The collector's sweep over the tuples, phase 4. Each method is the rule of that name in specs/Collector.antt.
ghost use Rattle.std.specs.Prelude.{Bool, List, ◌≡◌, ℕ, ◌+◌, ◌<◌, ◌≤◌, length};
ghost use Rattle.rules.specs.Parts.{Registers, with_size};
ghost use Rattle.rules.specs.Box.{reply};
ghost use Rattle.collector.specs.Boxed.{boxed};
ghost use Rattle.collector.specs.Answer.{number_of};
ghost use Rattle.rules.specs.Collector.{go_on, start_zero, keep_in_place, release, sweep_tuple, sweep_scan};
ghost use Rattle.collector.specs.Decide.{with_grant, Grants};

use crate::place::reaches;
use crate::state::{Answer, Answered, State};
use crate::word::Word;

impl State {
    // The sweep goes on in phase 4 with the tuple at address a, whose handle is there.
    pub fn go_on(mut self, a: u32, words: &[u32], flags: &[bool]) -> State
        requires { (length words.now ≡ self.m) × (length flags.now ≡ self.m) × (a < self.m) }
        ensures { (q : Registers) (ads ss ls : List ℕ) (ms ds : List Bool) → (boxed q words.now flags.now ads ss ls ms ds result) ≡ go_on a (boxed q words.now flags.now ads ss ls ms ds self) }
    {
        let at = a as usize;
        let word = Word {
            bits: words[at],
            flag: flags[at],
        };
        self.src = a;
        self.tuple = word.handle();
        self.phase = 4;
        self
    }

    // Words of the tuple are to become data 0: from where live begins, or all of it.
    fn start_zero(mut self) -> State
        ensures { (q : Registers) (ws : List ℕ) (fs : List Bool) (ads ss ls : List ℕ) (ms ds : List Bool) → (boxed q ws fs ads ss ls ms ds result) ≡ start_zero (boxed q ws fs ads ss ls ms ds self) }
    {
        let src = self.src;
        let live = self.live;
        self.phase = 8;
        if src < live {
            self.index = live - src;
            return self;
        }
        self.index = 0;
        self
    }

    // A marked tuple of this size that stays in place: it is unmarked, and behind it the sweep goes on or, at top, the cycle
    // ends. Answers 30, what that end gives, or 9 where it is refused or the next tuple is not in memory.
    fn keep_in_place(
        mut self,
        size: u32,
        words: &[u32],
        flags: &[bool],
        marks: &mut [bool],
    ) -> Answered
        requires { (length words.now ≡ self.m) × (length flags.now ≡ self.m) × (length marks.old ≡ self.h) × (self.m < 65536) × (self.tuple < self.h) × (self.src + size + 1 ≤ self.m) }
        ensures answer_after { (q : Registers) (ads ss ls : List ℕ) (ds : List Bool) → with_grant (reply (boxed q words.now flags.now ads ss ls marks.new ds result.state) (number_of result.answer)) ≡ keep_in_place (boxed q words.now flags.now ads ss ls marks.old ds self) (with_size size (boxed q words.now flags.now ads ss ls marks.old ds self)) }
        ensures grants { Grants self.m self.h result.state (number_of result.answer) }
    {
        let entry = self.tuple as usize;
        let after = self.src + size + 1;
        if after == self.top {
            if self.end_refused() {
                return Answered {
                    state: self,
                    answer: Answer::Refused,
                };
            }
            marks[entry] = false;
            self.size = size;
            return self.end_cycle();
        }
        if self.m <= after {
            return Answered {
                state: self,
                answer: Answer::Refused,
            };
        }
        marks[entry] = false;
        self.size = size;
        self.dest = after;
        self = self.go_on(after, words, flags);
        Answered {
            state: self,
            answer: Answer::Going,
        }
    }

    // An unmarked tuple of this size: its handle becomes free. Where it lies below live the sweep goes on behind it, and else its
    // words become data 0. Answers 30, or 9 where the next tuple is not in memory.
    fn release(mut self, size: u32, words: &[u32], flags: &[bool], links: &mut [u32]) -> Answered
        requires { (length words.now ≡ self.m) × (length flags.now ≡ self.m) × (length links.old ≡ self.h) × (self.m < 65536) × (self.tuple < self.h) × (self.src + size + 1 ≤ self.m) }
        ensures { (q : Registers) (ads ss : List ℕ) (ms ds : List Bool) → reply (boxed q words.now flags.now ads ss links.new ms ds result.state) (number_of result.answer) ≡ release (boxed q words.now flags.now ads ss links.old ms ds self) (with_size size (boxed q words.now flags.now ads ss links.old ms ds self)) }
    {
        let free = self.free;
        let tuple = self.tuple;
        let i = tuple as usize;
        let last = self.src + size;
        if last < self.live {
            if last + 1 < self.m {
                links[i] = free;
                self.size = size;
                self.free = tuple;
                self = self.go_on(last + 1, words, flags);
                return Answered {
                    state: self,
                    answer: Answer::Going,
                };
            }
            return Answered {
                state: self,
                answer: Answer::Refused,
            };
        }
        links[i] = free;
        self.size = size;
        self.free = tuple;
        self = self.start_zero();
        Answered {
            state: self,
            answer: Answer::Going,
        }
    }

    // The tuple under the sweep, of this size: kept in place, to be moved, or released. Answers 30, what the end of the cycle
    // gives, or 9.
    fn sweep_tuple(
        mut self,
        size: u32,
        words: &[u32],
        flags: &[bool],
        links: &mut [u32],
        marks: &mut [bool],
    ) -> Answered
        requires { (length words.now ≡ self.m) × (length flags.now ≡ self.m) × (length links.old ≡ self.h) × (length marks.old ≡ self.h) × (self.m < 65536) × (self.tuple < self.h) }
        ensures answer_after { (q : Registers) (ads ss : List ℕ) (ds : List Bool) → with_grant (reply (boxed q words.now flags.now ads ss links.new marks.new ds result.state) (number_of result.answer)) ≡ sweep_tuple (boxed q words.now flags.now ads ss links.old marks.old ds self) (with_size size (boxed q words.now flags.now ads ss links.old marks.old ds self)) }
        ensures grants { Grants self.m self.h result.state (number_of result.answer) }
    {
        let src = self.src;
        let i = self.tuple as usize;
        if reaches(self.m, src, size) {
            if marks[i] {
                if src == self.dest {
                    return self.keep_in_place(size, words, flags, marks);
                }
                marks[i] = false;
                self.size = size;
                self.index = 0;
                self.phase = 5;
                return Answered {
                    state: self,
                    answer: Answer::Going,
                };
            }
            return self.release(size, words, flags, links);
        }
        Answered {
            state: self,
            answer: Answer::Refused,
        }
    }

    // Phase 4, Sweep scan: the tuple under the sweep is kept in place, to be moved, or released. Answers 30, what the end of the
    // cycle gives, or 9.
    pub fn sweep_scan(
        mut self,
        words: &[u32],
        flags: &[bool],
        sizes: &[u32],
        links: &mut [u32],
        marks: &mut [bool],
    ) -> Answered
        requires { (length words.now ≡ self.m) × (length flags.now ≡ self.m) × (length sizes.now ≡ self.h) × (length links.old ≡ self.h) × (length marks.old ≡ self.h) × (self.m < 65536) }
        ensures answer_after { (q : Registers) (ads : List ℕ) (ds : List Bool) → with_grant (reply (boxed q words.now flags.now ads sizes.now links.new marks.new ds result.state) (number_of result.answer)) ≡ sweep_scan (boxed q words.now flags.now ads sizes.now links.old marks.old ds self) }
        ensures grants { Grants self.m self.h result.state (number_of result.answer) }
    {
        let h = self.tuple;
        if self.is_entry(h) {
            let i = h as usize;
            let size = sizes[i];
            return self.sweep_tuple(size, words, flags, links, marks);
        }
        Answered {
            state: self,
            answer: Answer::Refused,
        }
    }
}
