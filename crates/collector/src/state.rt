// What a rule of the collector needs beside the columns: the numbers of a box, without its registers. It goes in by value and
// comes back by value. Any field may hold any value: a rule that cannot be carried out answers 9.
ghost use Rattle.std.specs.Prelude.{◌≡◌};
ghost use Rattle.collector.specs.Answer.{number_of};

#[derive(Clone, Copy)]
pub struct State {
    // The sizes stated at the opening: M words and H directory entries.
    pub m: u32,
    pub h: u32,
    // The first word that no tuple takes, and the head of the free list (0: empty).
    pub top: u32,
    pub free: u32,
    // The collector: its phase, 0 to 8, and the words of all marked tuples.
    pub phase: u32,
    pub live: u32,
    // The heads of the two lists of deep tuples still to be scanned (0: empty).
    pub current: u32,
    pub next: u32,
    // The tuple under the scan or the sweep: where it lies, where it goes, its handle, its size, the next word.
    pub src: u32,
    pub dest: u32,
    pub tuple: u32,
    pub size: u32,
    pub index: u32,
    // The copy register: a word on its way from src to dest. In two fields and no `Word`, as C lends it.
    pub copy: u32,
    pub copy_flag: bool,
    // The hold: a GETM that waits for room, and whether a cycle began while it waited. No `Option`: where nothing is held the other fields keep what
    // they had, as document 01 wants of a field that a rule does not name.
    pub held: bool,
    pub begun: bool,
    pub hold_register: u16,
    pub hold_size: u16,
    pub hold_tag: u16,
}

// What a step answers, each with its number in document 01.
#[derive(Clone, Copy, PartialEq, Eq)]
pub enum Answer {
    // The cycle has ended, and the held request is dropped.
    Dropped = 8,
    // The step cannot be done, and all is as it was found.
    Refused = 9,
    // The cycle goes on.
    Going = 30,
    // The cycle has ended, and nothing was held.
    Ended = 31,
    // The cycle has ended, and the held request is granted.
    Granted = 32,
    // The cycle has ended, and the request is still held.
    StillHeld = 33,
}

impl Answer {
    // The answer's number. A method and no `From`: its clause names the definition of the numbers.
    pub fn number(self) -> u32
        ensures { result ≡ number_of self }
    {
        self as u32
    }
}

// What a rule leaves, and its answer.
#[derive(Clone, Copy)]
pub struct Answered {
    pub state: State,
    pub answer: Answer,
}
