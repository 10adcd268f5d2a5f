// Whether an address that a rule forms is one of memory.
ghost use Rattle.std.specs.Prelude.{◌≡◌, ◌+◌, ltb};

// Whether the address base + offset is one of a memory of m words.
pub fn reaches(m: u32, base: u32, offset: u32) -> bool
    ensures { result ≡ ltb (base + offset) m }
{
    if m < base {
        return false;
    }
    offset < m - base
}
