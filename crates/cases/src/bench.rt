// A box with its own buffers, 16 words and 4 entries, that goes through a case.
use lent::MemoryUnit;
use rules::Request;
use std::io;

// What is lent to each call, and what the last one answered. Arrays of fixed length: there is no heap.
#[derive(Clone, Copy)]
pub struct Bench {
    pub answer: u32,
    pub numbers: [u32; 22],
    pub switches: [bool; 11],
    pub hold: [u16; 3],
    pub words: [u32; 16],
    pub flags: [bool; 16],
    pub addresses: [u32; 4],
    pub sizes: [u32; 4],
    pub links: [u32; 4],
    pub marks: [bool; 4],
    pub deeps: [bool; 4],
}

impl Bench {
    // The box opened 16, 4. What is lent to the opening holds other things before.
    pub(crate) fn opened() -> Bench {
        let mut bench = Bench {
            answer: 0,
            numbers: [7; 22],
            switches: [true; 11],
            hold: [7; 3],
            words: [7; 16],
            flags: [true; 16],
            addresses: [7; 4],
            sizes: [7; 4],
            links: [7; 4],
            marks: [true; 4],
            deeps: [true; 4],
        };
        bench.answer = memory::open(&mut bench.unit(), 16, 4);
        bench
    }

    // The box as each call takes it.
    fn unit(&mut self) -> MemoryUnit<'_> {
        let words = &mut self.words;
        let flags = &mut self.flags;
        let addresses = &mut self.addresses;
        let sizes = &mut self.sizes;
        let links = &mut self.links;
        let marks = &mut self.marks;
        let deeps = &mut self.deeps;
        MemoryUnit {
            numbers: &mut self.numbers,
            switches: &mut self.switches,
            hold: &mut self.hold,
            words,
            flags,
            addresses,
            sizes,
            links,
            marks,
            deeps,
        }
    }

    // A request; writes its answer.
    pub(crate) fn ask(&mut self, rt: &impl Print, request: Request) -> io::Result<()> {
        self.answer = memory::request(&mut self.unit(), request);
        print!(rt; " {}", self.answer)
    }

    // A run with a budget of steps; writes how many it did and its answer.
    pub(crate) fn budget(&mut self, rt: &impl Print, most: u32) -> io::Result<()> {
        let done = memory::run(&mut self.unit(), most);
        self.answer = done.answer;
        print!(rt; " steps {} {}", done.steps, done.answer)
    }

    // Single steps up to one that does not answer 30, at most so many; gives how many were done.
    fn steps(&mut self, most: u32) -> u32 {
        for n in 0..most {
            self.answer = memory::step(&mut self.unit());
            if self.answer != 30 {
                return n + 1;
            }
        }
        most
    }

    // Such steps; writes how many were done and the last answer.
    pub(crate) fn run(&mut self, rt: &impl Print, most: u32) -> io::Result<()> {
        let done = self.steps(most);
        print!(rt; " step {done} {}", self.answer)
    }

    // Such steps; writes the last answer.
    pub(crate) fn later(&mut self, rt: &impl Print, most: u32) -> io::Result<()> {
        self.steps(most);
        print!(rt; " later {}", self.answer)
    }
}
