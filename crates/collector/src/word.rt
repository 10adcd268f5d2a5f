// A word and its flag, apart from where it is kept.
ghost use Rattle.std.specs.Prelude.{◌≡◌, ◌<◌};
ghost use Rattle.rules.specs.Box.{handle_of, offset_of, names_tuple};
ghost use Rattle.collector.specs.Boxed.{word_of};

// 32 bits, and whether they are a pointer.
#[derive(Clone, Copy, PartialEq, Eq)]
pub struct Word {
    pub bits: u32,
    pub flag: bool,
}

impl Word {
    // The upper 16 bits: the handle of a pointer or of a control word.
    pub fn handle(self) -> u32
        ensures { (result ≡ handle_of (word_of self)) × (result < 65536) }
    {
        self.bits / 65536
    }

    // The lower 16 bits: the offset of a pointer, or the tag of a control word.
    pub fn offset(self) -> u32
        ensures { (result ≡ offset_of (word_of self)) × (result < 65536) }
    {
        self.bits % 65536
    }

    // Whether it is a pointer other than nil.
    pub fn names_tuple(self) -> bool
        ensures { result ≡ names_tuple (word_of self) }
    {
        if self.flag {
            return self.bits / 65536 != 0;
        }
        false
    }
}
