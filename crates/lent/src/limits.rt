// What every call tests first: the sizes, the lengths of the lent columns, and the phase.
ghost use Rattle.std.specs.Prelude.{◌≡◌};
ghost use Rattle.rules.specs.Limits.{in_range};
ghost use Rattle.rules.specs.Box.{lengths_are, right_sizes, sound};
ghost use Rattle.lent.specs.Lent.{box_of};

use crate::unit::MemoryUnit;

// The limits of document 01, as in crate rules, specs/Limits.antt.
const LEAST_WORDS: u32 = 16;

const MOST_WORDS: u32 = 8192;

const LEAST_ENTRIES: u32 = 2;

const MOST_ENTRIES: u32 = 1024;

const LAST_PHASE: u32 = 8;

// Whether m words and h entries are sizes that a box may have.
#[inline(always)]
#[tactic(auto, unfolding(rules::specs::Limits::in_range))]
fn in_range(m: u32, h: u32) -> bool
    ensures { result ≡ in_range m h }
{
    LEAST_WORDS <= m && m <= MOST_WORDS && LEAST_ENTRIES <= h && h <= MOST_ENTRIES
}

impl MemoryUnit<'_> {
    // Whether the memory's two lengths are m and the directory's five h.
    #[inline(always)]
    #[tactic(auto, unfolding(rules::specs::Box::lengths_are))]
    fn lengths_are(&self, m: u32, h: u32) -> bool
        ensures { result ≡ lengths_are m h (box_of self.now) }
    {
        let ms = m as usize;
        let hs = h as usize;
        self.words.len() == ms
            && self.flags.len() == ms
            && self.addresses.len() == hs
            && self.sizes.len() == hs
            && self.links.len() == hs
            && self.marks.len() == hs
            && self.deeps.len() == hs
    }

    // Whether m and h are sizes that a box may have and are the lengths of the lent columns.
    #[inline(always)]
    #[tactic(auto, unfolding(rules::specs::Box::right_sizes))]
    pub fn right_sizes(&self, m: u32, h: u32) -> bool
        ensures { result ≡ right_sizes m h (box_of self.now) }
    {
        in_range(m, h) && self.lengths_are(m, h)
    }

    // Whether the sizes are right for the columns and the phase is 0 to 8. Where it is not so, every call answers 9.
    #[inline(always)]
    #[tactic(auto, unfolding(rules::specs::Box::sound, crate::specs::Lent::state_of))]
    pub fn is_sound(&self) -> bool
        ensures { result ≡ sound (box_of self.now) }
    {
        let numbers = &*self.numbers;
        self.right_sizes(numbers[0], numbers[1]) && numbers[4] <= LAST_PHASE
    }
}
