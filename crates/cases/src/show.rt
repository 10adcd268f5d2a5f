// What a case shows of its box.
use crate::bench::Bench;
use std::{fmt, io};

// A word: what kind it is, and its bits.
#[derive(Clone, Copy)]
struct Shown {
    bits: u32,
    pointer: bool,
}

impl fmt::Display for Shown {
    fn fmt<W: fmt::Write>(&self, f: &mut fmt::Formatter<W>) -> fmt::Result {
        let kind = if self.pointer { "pointer" } else { "data" };
        write!(f, "{kind} {:08x}", self.bits)
    }
}

impl Bench {
    // What the opening answered.
    pub(crate) fn answered(&self, rt: &impl Print) -> io::Result<()> {
        print!(rt; ": opened {};", self.answer)
    }

    // Whether a request is held.
    pub(crate) fn held(&self, rt: &impl Print) -> io::Result<()> {
        let held = if self.switches[9] {
            "held"
        } else {
            "nothing held"
        };
        print!(rt; ", {held}")
    }

    // The first word that no tuple takes.
    pub(crate) fn top(&self, rt: &impl Print) -> io::Result<()> {
        print!(rt; ", top {}", self.numbers[2])
    }

    // The free list, in order, at most four.
    pub(crate) fn free(&self, rt: &impl Print) -> io::Result<()> {
        print!(rt; ", free")?;
        let mut h = self.numbers[3];
        for _ in 0..4 {
            let next = self.links.get(h as usize);
            let Some(next) = next.filter(|_| h != 0) else {
                return Ok(());
            };
            print!(rt; " {h}")?;
            h = *next;
        }
        Ok(())
    }

    // The word at an address below 16.
    pub(crate) fn word(&self, rt: &impl Print, at: usize) -> io::Result<()> {
        if at < 16 {
            let word = Shown {
                bits: self.words[at],
                pointer: self.flags[at],
            };
            print!(rt; ", word {at} {word}")?;
        }
        Ok(())
    }

    // Whether every word from an address on is data 0.
    pub(crate) fn zeros(&self, rt: &impl Print, from: usize) -> io::Result<()> {
        let words = self.words.iter().zip(self.flags.iter());
        if words.skip(from).all(|(bits, flag)| *bits == 0 && !*flag) {
            print!(rt; ", zero from {from}")
        } else {
            print!(rt; ", not zero from {from}")
        }
    }

    // The word in a register below 8.
    pub(crate) fn register(&self, rt: &impl Print, r: usize) -> io::Result<()> {
        if r < 8 {
            let word = Shown {
                bits: self.numbers[r + 14],
                pointer: self.switches[r],
            };
            print!(rt; ", register {r} {word}")?;
        }
        Ok(())
    }

    // The handle in a register below 8.
    pub(crate) fn handle(&self, rt: &impl Print, r: usize) -> io::Result<()> {
        if r < 8 {
            print!(rt; ", handle {}", self.numbers[r + 14] / 65536)?;
        }
        Ok(())
    }

    // Where the tuple of a handle below 4 lies.
    pub(crate) fn address(&self, rt: &impl Print, h: usize) -> io::Result<()> {
        if h < 4 {
            print!(rt; ", address {h} {}", self.addresses[h])?;
        }
        Ok(())
    }
}
