// The collector's search for roots, phase 1: the next list first, then what a look at the registers found, and at last the end
// of marking.
ghost use Rattle.std.specs.Prelude.{Bool, List, ◌≡◌, ℕ, ◌<◌, length};
ghost use Rattle.rules.specs.Limits.{register_count};
ghost use Rattle.rules.specs.Box.{reply};
ghost use Rattle.rules.specs.Parts.{Registers};
ghost use Rattle.collector.specs.Boxed.{boxed};
ghost use Rattle.collector.specs.Answer.{number_of};
ghost use Rattle.rules.specs.Collector.{look_from, mark_root, end_marking, mark_next};
ghost use Rattle.collector.specs.Decide.{found_as, with_grant, Grants};

use crate::state::{Answer, Answered, State};
use crate::word::Word;

impl State {
    // Marking is over: with top 0 the cycle ends, and else the sweep begins at word 0. Answers 30, what the end of the cycle
    // gives, or 9 where that end is refused.
    fn end_marking(mut self, words: &[u32], flags: &[bool]) -> Answered
        requires { (length words.now ≡ self.m) × (length flags.now ≡ self.m) × (0 < self.m) }
        ensures answer_value { (q : Registers) (ads ss ls : List ℕ) (ms ds : List Bool) → with_grant (reply (boxed q words.now flags.now ads ss ls ms ds result.state) (number_of result.answer)) ≡ end_marking (boxed q words.now flags.now ads ss ls ms ds self) }
        ensures grants { Grants self.m self.h result.state (number_of result.answer) }
    {
        if self.top == 0 {
            if self.end_refused() {
                return Answered {
                    state: self,
                    answer: Answer::Refused,
                };
            }
            return self.end_cycle();
        }
        let word = Word {
            bits: words[0],
            flag: flags[0],
        };
        self.src = 0;
        self.dest = 0;
        self.tuple = word.handle();
        self.phase = 4;
        Answered {
            state: self,
            answer: Answer::Going,
        }
    }

    // Shades the tuple of the root's handle, which the lowest register that points to an unmarked one names, and with no root ends
    // marking. Answers 9 where that register names no entry or its tuple can't be shaded.
    fn mark_root(
        mut self,
        root: Option<u32>,
        words: &[u32],
        flags: &[bool],
        sizes: &[u32],
        links: &mut [u32],
        marks: &mut [bool],
        deeps: &[bool],
    ) -> Answered
        requires { (length words.now ≡ self.m) × (length flags.now ≡ self.m) × (length sizes.now ≡ self.h) × (length links.old ≡ self.h) × (length marks.old ≡ self.h) × (length deeps.now ≡ self.h) × (self.m < 65536) × (0 < self.m) }
        ensures answer_after { (q : Registers) (ads : List ℕ) → with_grant (reply (boxed q words.now flags.now ads sizes.now links.new marks.new deeps.now result.state) (number_of result.answer)) ≡ mark_root (found_as root (boxed q words.now flags.now ads sizes.now links.old marks.old deeps.now self)) (boxed q words.now flags.now ads sizes.now links.old marks.old deeps.now self) }
        ensures grants { Grants self.m self.h result.state (number_of result.answer) }
    {
        let Some(h) = root else {
            return self.end_marking(words, flags);
        };
        let mut answer = Answer::Refused;
        if self.can_shade(h, sizes, marks) {
            self = self.shade(h, sizes, links, marks, deeps);
            answer = Answer::Going;
        }
        Answered {
            state: self,
            answer,
        }
    }

    // Phase 1, Mark next: the head of the next list is taken to scan; with that list empty, what a look at the registers found is
    // a handle or nothing. Answers 30, what the end of the cycle gives, or 9.
    pub fn mark_next(
        mut self,
        root: Option<u32>,
        words: &[u32],
        flags: &[bool],
        addresses: &[u32],
        sizes: &[u32],
        links: &mut [u32],
        marks: &mut [bool],
        deeps: &[bool],
    ) -> Answered
        requires { (length words.now ≡ self.m) × (length flags.now ≡ self.m) × (length addresses.now ≡ self.h) × (length sizes.now ≡ self.h) × (length links.old ≡ self.h) × (length marks.old ≡ self.h) × (length deeps.now ≡ self.h) × (self.m < 65536) × (0 < self.m) }
        ensures answer_after { (q : Registers) → (self.next ≡ 0 → found_as root (boxed q words.now flags.now addresses.now sizes.now links.old marks.old deeps.now self) ≡ look_from register_count (boxed q words.now flags.now addresses.now sizes.now links.old marks.old deeps.now self)) → with_grant (reply (boxed q words.now flags.now addresses.now sizes.now links.new marks.new deeps.now result.state) (number_of result.answer)) ≡ mark_next (boxed q words.now flags.now addresses.now sizes.now links.old marks.old deeps.now self) }
        ensures grants { Grants self.m self.h result.state (number_of result.answer) }
    {
        if self.next == 0 {
            return self.mark_root(root, words, flags, sizes, links, marks, deeps);
        }
        self.scan_next(addresses, sizes, links)
    }
}
