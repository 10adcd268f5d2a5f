// How the sweep moves a tuple and clears words, phases 5 to 8. Each method is the rule of that name in specs/Collector.antt.
ghost use Rattle.std.specs.Prelude.{Bool, true, List, [], ◌≡◌, ℕ, ◌+◌, ◌<◌, length};
ghost use Rattle.rules.specs.Parts.{Registers, Box};
ghost use Rattle.rules.specs.Box.{reply};
ghost use Rattle.collector.specs.Boxed.{blank, boxed};
ghost use Rattle.collector.specs.Answer.{number_of};
ghost use Rattle.rules.specs.Collector.{leave_tuple, finish_move, copy_word, sweep_read, sweep_clear, sweep_write, zero_word, sweep_zero};
ghost use Rattle.collector.specs.Decide.{can_leave, with_grant, Grants};

use crate::place::reaches;
use crate::state::{Answer, Answered, State};

impl State {
    // Whether the sweep can leave its tuple: what is behind it is in memory, or it is the last and the end of the cycle is not
    // refused.
    fn can_leave(mut self) -> bool
        ensures { (q : Registers) (ws : List ℕ) (fs : List Bool) (ads ss ls : List ℕ) (ms ds : List Bool) → result ≡ can_leave (boxed q ws fs ads ss ls ms ds self) }
    {
        let src = self.src;
        let size = self.size;
        if reaches(self.m, src, size) {
            let after = src + size + 1;
            if after == self.top {
                self.top = self.dest;
                if self.end_refused() {
                    return false;
                }
                return true;
            }
            return after < self.m;
        }
        false
    }

    // Behind the tuple: at top, top is dest and the cycle ends, and else the sweep goes on in phase 4. Answers 30, or what the
    // end of the cycle gives.
    fn leave_tuple(mut self, words: &[u32], flags: &[bool]) -> Answered
        requires { (length words.now ≡ self.m) × (length flags.now ≡ self.m) × (self.m < 65536) × (can_leave (boxed blank [] [] [] [] [] [] [] self) ≡ true) }
        ensures answer_value { (q : Registers) (found : Box) (ads ss ls : List ℕ) (ms ds : List Bool) → with_grant (reply (boxed q words.now flags.now ads ss ls ms ds result.state) (number_of result.answer)) ≡ leave_tuple found (boxed q words.now flags.now ads ss ls ms ds self) }
        ensures grants { Grants self.m self.h result.state (number_of result.answer) }
    {
        let after = self.src + self.size + 1;
        if after == self.top {
            self.top = self.dest;
            return self.end_cycle();
        }
        self = self.go_on(after, words, flags);
        Answered {
            state: self,
            answer: Answer::Going,
        }
    }

    // The tuple has been moved: the address in its entry is dest, dest grows by size + 1, and the sweep leaves the tuple.
    // Answers 30, what the end of the cycle gives, or 9.
    fn finish_move(self, words: &[u32], flags: &[bool], addresses: &mut [u32]) -> Answered
        requires { (length words.now ≡ self.m) × (length flags.now ≡ self.m) × (length addresses.old ≡ self.h) × (self.m < 65536) }
        ensures answer_after { (q : Registers) (ss ls : List ℕ) (ms ds : List Bool) → with_grant (reply (boxed q words.now flags.now addresses.new ss ls ms ds result.state) (number_of result.answer)) ≡ finish_move (boxed q words.now flags.now addresses.old ss ls ms ds self) }
        ensures grants { Grants self.m self.h result.state (number_of result.answer) }
    {
        let h = self.tuple;
        let dest = self.dest;
        let size = self.size;
        if self.is_entry(h) {
            if reaches(self.m, dest, size) {
                let mut state = self;
                state.dest = dest + size + 1;
                if state.can_leave() {
                    let i = h as usize;
                    addresses[i] = dest;
                    return state.leave_tuple(words, flags);
                }
            }
        }
        Answered {
            state: self,
            answer: Answer::Refused,
        }
    }

    // The word at address a goes to the copy register; below live it is written next, and else its place is cleared first.
    pub fn copy_word(mut self, a: u32, words: &[u32], flags: &[bool]) -> State
        requires { (length words.now ≡ self.m) × (length flags.now ≡ self.m) × (a < self.m) }
        ensures { (q : Registers) (ads ss ls : List ℕ) (ms ds : List Bool) → (boxed q words.now flags.now ads ss ls ms ds result) ≡ copy_word a (boxed q words.now flags.now ads ss ls ms ds self) }
    {
        let at = a as usize;
        self.copy = words[at];
        self.copy_flag = flags[at];
        if a < self.live {
            self.phase = 7;
            return self;
        }
        self.phase = 6;
        self
    }

    // Phase 5, Sweep read: one word of the tuple goes to the copy register, or behind its last word the move is finished. Answers
    // 30, what the end of the cycle gives, or 9.
    pub fn sweep_read(mut self, words: &[u32], flags: &[bool], addresses: &mut [u32]) -> Answered
        requires { (length words.now ≡ self.m) × (length flags.now ≡ self.m) × (length addresses.old ≡ self.h) × (self.m < 65536) }
        ensures answer_after { (q : Registers) (ss ls : List ℕ) (ms ds : List Bool) → with_grant (reply (boxed q words.now flags.now addresses.new ss ls ms ds result.state) (number_of result.answer)) ≡ sweep_read (boxed q words.now flags.now addresses.old ss ls ms ds self) }
        ensures grants { Grants self.m self.h result.state (number_of result.answer) }
    {
        let src = self.src;
        let index = self.index;
        if self.size < index {
            return self.finish_move(words, flags, addresses);
        }
        if reaches(self.m, src, index) {
            self = self.copy_word(src + index, words, flags);
            return Answered {
                state: self,
                answer: Answer::Going,
            };
        }
        Answered {
            state: self,
            answer: Answer::Refused,
        }
    }

    // Phase 6, Sweep clear: the word just copied becomes data 0 where it was. Answers 30, or 9 where it is not in memory.
    pub fn sweep_clear(mut self, words: &mut [u32], flags: &mut [bool]) -> Answered
        requires { (length words.old ≡ self.m) × (length flags.old ≡ self.m) × (self.m < 65536) }
        ensures { (q : Registers) (ads ss ls : List ℕ) (ms ds : List Bool) → reply (boxed q words.new flags.new ads ss ls ms ds result.state) (number_of result.answer) ≡ sweep_clear (boxed q words.old flags.old ads ss ls ms ds self) }
    {
        let src = self.src;
        let index = self.index;
        if reaches(self.m, src, index) {
            let at = (src + index) as usize;
            words[at] = 0;
            flags[at] = false;
            self.phase = 7;
            return Answered {
                state: self,
                answer: Answer::Going,
            };
        }
        Answered {
            state: self,
            answer: Answer::Refused,
        }
    }

    // Phase 7, Sweep write: the copy register goes to dest + index. Answers 30, or 9 where that is not in memory.
    pub fn sweep_write(mut self, words: &mut [u32], flags: &mut [bool]) -> Answered
        requires { (length words.old ≡ self.m) × (length flags.old ≡ self.m) × (self.m < 65536) }
        ensures { (q : Registers) (ads ss ls : List ℕ) (ms ds : List Bool) → reply (boxed q words.new flags.new ads ss ls ms ds result.state) (number_of result.answer) ≡ sweep_write (boxed q words.old flags.old ads ss ls ms ds self) }
    {
        let dest = self.dest;
        let index = self.index;
        if reaches(self.m, dest, index) {
            let at = (dest + index) as usize;
            words[at] = self.copy;
            flags[at] = self.copy_flag;
            self.index = index + 1;
            self.phase = 5;
            return Answered {
                state: self,
                answer: Answer::Going,
            };
        }
        Answered {
            state: self,
            answer: Answer::Refused,
        }
    }

    // One word of a released tuple becomes data 0.
    pub fn zero_word(mut self, words: &mut [u32], flags: &mut [bool]) -> State
        requires { (length words.old ≡ self.m) × (length flags.old ≡ self.m) × (self.m < 65536) × (self.src + self.index < self.m) }
        ensures { (q : Registers) (ads ss ls : List ℕ) (ms ds : List Bool) → (boxed q words.new flags.new ads ss ls ms ds result) ≡ zero_word (boxed q words.old flags.old ads ss ls ms ds self) }
    {
        let index = self.index;
        let at = (self.src + index) as usize;
        words[at] = 0;
        flags[at] = false;
        self.index = index + 1;
        self
    }

    // Phase 8, Sweep zero: one word of a released tuple becomes data 0, or behind its last word the sweep leaves it. Answers 30,
    // what the end of the cycle gives, or 9.
    pub fn sweep_zero(mut self, words: &mut [u32], flags: &mut [bool]) -> Answered
        requires { (length words.old ≡ self.m) × (length flags.old ≡ self.m) × (self.m < 65536) }
        ensures answer_after { (q : Registers) (ads ss ls : List ℕ) (ms ds : List Bool) → with_grant (reply (boxed q words.new flags.new ads ss ls ms ds result.state) (number_of result.answer)) ≡ sweep_zero (boxed q words.old flags.old ads ss ls ms ds self) }
        ensures grants { Grants self.m self.h result.state (number_of result.answer) }
    {
        let src = self.src;
        let index = self.index;
        if self.size < index {
            if self.can_leave() {
                return self.leave_tuple(words, flags);
            }
            return Answered {
                state: self,
                answer: Answer::Refused,
            };
        }
        if reaches(self.m, src, index) {
            self = self.zero_word(words, flags);
            return Answered {
                state: self,
                answer: Answer::Going,
            };
        }
        Answered {
            state: self,
            answer: Answer::Refused,
        }
    }
}
