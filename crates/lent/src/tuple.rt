// A new tuple on the lent parts, at once or granted at the end of a cycle.
ghost use Rattle.std.specs.Prelude.{◌≡◌, ◌<◌, false, length, set};
ghost use Rattle.rules.specs.Request.{new_tuple};
ghost use Rattle.rules.specs.Collector.{granted};
ghost use Rattle.lent.specs.Lent.{box_of, state_in, HasColumns, HasRoom, SameReferences};

use crate::unit::MemoryUnit;
use collector::{Word, packed};

impl MemoryUnit<'_> {
    // Makes a tuple of n words, and register r points to it.
    pub fn make(&mut self, r: u16, n: u16, tag: u16)
        requires columns { HasColumns self.old }
        requires register { r < 8 }
        requires room { HasRoom (state_in self.old) n }
        ensures same_references { SameReferences self.old self.new }
        ensures made { box_of self.new ≡ new_tuple r n tag (box_of self.old) }
    {
        let before = self.state();
        let links = &mut *self.links;
        let after = before.new_tuple(
            n,
            tag,
            self.words,
            self.flags,
            self.addresses,
            self.sizes,
            links,
            self.marks,
            self.deeps,
        );
        self.put_back(before, after);
        let bits = packed(before.free, 0);
        self.put_register(r, Word { bits, flag: true });
    }

    // Carries out the held request, in Rest, and drops the hold.
    pub fn grant(&mut self)
        requires columns { HasColumns self.old }
        requires register { (state_in self.old).hold_register < 8 }
        requires room { HasRoom (state_in self.old) (state_in self.old).hold_size }
        requires rest { (state_in self.old).phase ≡ 0 }
        ensures same_references { SameReferences self.old self.new }
        ensures granted { box_of self.new ≡ granted (box_of self.old) }
    {
        let [register, size, tag] = *self.hold;
        self.make(register, size, tag);
        drop_hold(self.switches);
    }
}

// Nothing is held any more; what was asked for stays in the hold.
fn drop_hold(switches: &mut [bool])
    requires { length switches.old ≡ 11 }
    ensures long { length switches.old ≡ 11 }
    ensures stored { switches.new ≡ set switches.old 9 false }
{
    switches[9] = false;
}
