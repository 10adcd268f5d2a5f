// The collector's marking: phases 2 and 3, and how a tuple is taken to scan. Each method is the rule of that name in
// specs/Collector.antt.
ghost use Rattle.std.specs.Prelude.{Bool, List, ◌≡◌, ℕ, ◌+◌, ◌<◌, length};
ghost use Rattle.rules.specs.Box.{reply};
ghost use Rattle.rules.specs.Parts.{Registers};
ghost use Rattle.collector.specs.Boxed.{boxed};
ghost use Rattle.collector.specs.Answer.{number_of};
ghost use Rattle.rules.specs.Collector.{scan, scan_next, scan_word, scan_current, mark_scan, mark_add};

use crate::place::reaches;
use crate::state::{Answer, Answered, State};
use crate::word::Word;

impl State {
    // The state that scans tuple h: its address and size are taken from its entry, and what its link names becomes current.
    fn scan(mut self, h: u32, addresses: &[u32], sizes: &[u32], links: &[u32]) -> State
        requires { (length addresses.now ≡ self.h) × (length sizes.now ≡ self.h) × (length links.now ≡ self.h) × (h < self.h) }
        ensures { (q : Registers) (ws : List ℕ) (fs ms ds : List Bool) → boxed q ws fs addresses.now sizes.now links.now ms ds result ≡ scan h (boxed q ws fs addresses.now sizes.now links.now ms ds self) }
    {
        let i = h as usize;
        self.src = addresses[i];
        self.size = sizes[i];
        self.index = 1;
        self.current = links[i];
        self.phase = 2;
        self
    }

    // Takes the head of the next list to scan. Answers 30, or 9 where that head is no entry.
    pub fn scan_next(mut self, addresses: &[u32], sizes: &[u32], links: &[u32]) -> Answered
        requires { (length addresses.now ≡ self.h) × (length sizes.now ≡ self.h) × (length links.now ≡ self.h) }
        ensures { (q : Registers) (ws : List ℕ) (fs ms ds : List Bool) → reply (boxed q ws fs addresses.now sizes.now links.now ms ds result.state) (number_of result.answer) ≡ scan_next (boxed q ws fs addresses.now sizes.now links.now ms ds self) }
    {
        let h = self.next;
        if self.is_entry(h) {
            self.next = 0;
            self = self.scan(h, addresses, sizes, links);
            return Answered {
                state: self,
                answer: Answer::Going,
            };
        }
        Answered {
            state: self,
            answer: Answer::Refused,
        }
    }

    // The tuple under the scan is done: the head of the current list is taken to scan, and where the list is empty the next
    // list is looked at. Answers 30, or 9 where that head is no entry.
    fn scan_current(mut self, addresses: &[u32], sizes: &[u32], links: &[u32]) -> Answered
        requires { (length addresses.now ≡ self.h) × (length sizes.now ≡ self.h) × (length links.now ≡ self.h) }
        ensures { (q : Registers) (ws : List ℕ) (fs ms ds : List Bool) → reply (boxed q ws fs addresses.now sizes.now links.now ms ds result.state) (number_of result.answer) ≡ scan_current (boxed q ws fs addresses.now sizes.now links.now ms ds self) }
    {
        let h = self.current;
        if h == 0 {
            self.phase = 1;
            return Answered {
                state: self,
                answer: Answer::Going,
            };
        }
        if self.is_entry(h) {
            self = self.scan(h, addresses, sizes, links);
            return Answered {
                state: self,
                answer: Answer::Going,
            };
        }
        Answered {
            state: self,
            answer: Answer::Refused,
        }
    }

    // Looks at word src + index and adds 1 to index; a pointer other than nil is to be shaded next.
    pub fn scan_word(mut self, words: &[u32], flags: &[bool]) -> State
        requires { (length words.now ≡ self.m) × (length flags.now ≡ self.m) × (self.m < 65536) × (self.src + self.index < self.m) }
        ensures { (q : Registers) (ads ss ls : List ℕ) (ms ds : List Bool) → boxed q words.now flags.now ads ss ls ms ds result ≡ scan_word (boxed q words.now flags.now ads ss ls ms ds self) }
    {
        let src = self.src;
        let index = self.index;
        let at = (src + index) as usize;
        let word = Word {
            bits: words[at],
            flag: flags[at],
        };
        self.index = index + 1;
        if word.names_tuple() {
            self.tuple = word.handle();
            self.phase = 3;
            return self;
        }
        self
    }

    // Phase 2, Mark scan: one word of the tuple under the scan, or behind its last word the next tuple to scan. Answers 30, or
    // 9 where the word is not in memory or the current list's head is no entry.
    pub fn mark_scan(
        mut self,
        words: &[u32],
        flags: &[bool],
        addresses: &[u32],
        sizes: &[u32],
        links: &[u32],
    ) -> Answered
        requires { (length words.now ≡ self.m) × (length flags.now ≡ self.m) × (length addresses.now ≡ self.h) × (length sizes.now ≡ self.h) × (length links.now ≡ self.h) × (self.m < 65536) }
        ensures { (q : Registers) (ms ds : List Bool) → reply (boxed q words.now flags.now addresses.now sizes.now links.now ms ds result.state) (number_of result.answer) ≡ mark_scan (boxed q words.now flags.now addresses.now sizes.now links.now ms ds self) }
    {
        let src = self.src;
        let index = self.index;
        if self.size < index {
            return self.scan_current(addresses, sizes, links);
        }
        if reaches(self.m, src, index) {
            self = self.scan_word(words, flags);
            return Answered {
                state: self,
                answer: Answer::Going,
            };
        }
        Answered {
            state: self,
            answer: Answer::Refused,
        }
    }

    // Phase 3, Mark add: the tuple just found is shaded, and the scan goes on. Answers 30, or 9 where it can't be shaded.
    pub fn mark_add(
        mut self,
        sizes: &[u32],
        links: &mut [u32],
        marks: &mut [bool],
        deeps: &[bool],
    ) -> Answered
        requires { (length sizes.now ≡ self.h) × (length links.old ≡ self.h) × (length marks.old ≡ self.h) × (length deeps.now ≡ self.h) × (self.m < 65536) }
        ensures { (q : Registers) (ws : List ℕ) (fs : List Bool) (ads : List ℕ) → reply (boxed q ws fs ads sizes.now links.new marks.new deeps.now result.state) (number_of result.answer) ≡ mark_add (boxed q ws fs ads sizes.now links.old marks.old deeps.now self) }
    {
        let h = self.tuple;
        if self.can_shade(h, sizes, marks) {
            self = self.shade(h, sizes, links, marks, deeps);
            self.phase = 2;
            return Answered {
                state: self,
                answer: Answer::Going,
            };
        }
        Answered {
            state: self,
            answer: Answer::Refused,
        }
    }
}
