// The beginning of a cycle, phase 0, and its end, which is decided and carried out on the state alone.
ghost use Rattle.std.specs.Prelude.{Bool, true, false, List, [], ◌≡◌, ℕ};
ghost use Rattle.rules.specs.Parts.{Registers, Box};
ghost use Rattle.rules.specs.Box.{reply};
ghost use Rattle.collector.specs.Boxed.{blank, boxed};
ghost use Rattle.collector.specs.Answer.{number_of};
ghost use Rattle.rules.specs.Collector.{rest, try_held, end_cycle};
ghost use Rattle.collector.specs.Decide.{end_refused, with_grant, Grants};

use crate::state::{Answer, Answered, State};

impl State {
    // Phase 0, Rest: live and both lists become empty, the hold notes that a cycle begins under it, and marking starts.
    pub fn rest(mut self) -> Answered
        ensures { (q : Registers) (ws : List ℕ) (fs : List Bool) (ads ss ls : List ℕ) (ms ds : List Bool) → reply (boxed q ws fs ads ss ls ms ds result.state) (number_of result.answer) ≡ rest (boxed q ws fs ads ss ls ms ds self) }
    {
        self.live = 0;
        self.current = 0;
        self.next = 0;
        self.phase = 1;
        if self.held {
            self.begun = true;
        }
        Answered {
            state: self,
            answer: Answer::Going,
        }
    }

    // Whether the end of a cycle is refused: the held request would be granted, and its register is above 7 or the free
    // handle is no entry.
    pub fn end_refused(self) -> bool
        ensures { (q : Registers) (ws : List ℕ) (fs : List Bool) (ads ss ls : List ℕ) (ms ds : List Bool) → result ≡ end_refused (boxed q ws fs ads ss ls ms ds self) }
    {
        let n = self.hold_size;
        let free = self.free;
        if self.held {
            if self.no_room(n) {
                return false;
            }
            if self.hold_register < 8 {
                if self.is_entry(free) {
                    return false;
                }
                return true;
            }
            return true;
        }
        false
    }

    // The held request is tried again, in Rest: with room it is granted, 32, and the step makes its tuple and drops the hold;
    // without room it answers 8 and the hold is dropped if the cycle began while it was held, and otherwise it stays, 33.
    fn try_held(mut self) -> Answered
        requires { (self.held ≡ true) × (self.phase ≡ 0) × (end_refused (boxed blank [] [] [] [] [] [] [] self) ≡ false) }
        ensures answer_value { (q : Registers) (found : Box) (ws : List ℕ) (fs : List Bool) (ads ss ls : List ℕ) (ms ds : List Bool) → with_grant (reply (boxed q ws fs ads ss ls ms ds result.state) (number_of result.answer)) ≡ try_held found (boxed q ws fs ads ss ls ms ds self) }
        ensures grants { Grants self.m self.h result.state (number_of result.answer) }
    {
        let n = self.hold_size;
        if self.no_room(n) {
            if self.begun {
                self.held = false;
                return Answered {
                    state: self,
                    answer: Answer::Dropped,
                };
            }
            return Answered {
                state: self,
                answer: Answer::StillHeld,
            };
        }
        Answered {
            state: self,
            answer: Answer::Granted,
        }
    }

    // Ends a cycle that is not refused: live is 0 and the phase Rest. Answers 31 with nothing held, else what the held request
    // gives.
    pub fn end_cycle(mut self) -> Answered
        requires { end_refused (boxed blank [] [] [] [] [] [] [] self) ≡ false }
        ensures answer_value { (q : Registers) (found : Box) (ws : List ℕ) (fs : List Bool) (ads ss ls : List ℕ) (ms ds : List Bool) → with_grant (reply (boxed q ws fs ads ss ls ms ds result.state) (number_of result.answer)) ≡ end_cycle found (boxed q ws fs ads ss ls ms ds self) }
        ensures grants { Grants self.m self.h result.state (number_of result.answer) }
    {
        self.live = 0;
        self.phase = 0;
        if self.held {
            return self.try_held();
        }
        Answered {
            state: self,
            answer: Answer::Ended,
        }
    }
}
