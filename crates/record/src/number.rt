// A number in groups of seven bits, lowest group first.
ghost use Rattle.std.specs.Prelude.{◌≡◌, ◌≤◌, ◌<◌, length, drop};
ghost use Rattle.record.specs.declared.number.Fault.{Fault};
ghost use Rattle.record.specs.declared.number.Number.TheVariants.{Refused};
ghost use Rattle.record.specs.Number.{before, more_groups, number};
ghost use Rattle.record.specs.Found.{number_of, said, as_number};

// What refuses bytes, each with its number in document 02.
#[derive(Clone, Copy, PartialEq, Eq)]
pub enum Fault {
    // The bytes end inside a number, or before what must come.
    Cut = 20,
    // A long form, or more than 32 bits.
    LongForm = 21,
    // An unknown kind or edition.
    Unknown = 22,
    // A field that is too large for its kind.
    TooLarge = 23,
}

impl Fault {
    // The refusal's number. A method and no `From`: its clause names the definition of the numbers.
    pub fn number(self) -> u32
        ensures { result ≡ number_of self }
    {
        self as u32
    }
}

// A number and the place behind it, or what refuses it. This is no Result: document 01's list of code forms has each answer of a
// seven-bit number as an enum that record reading unpacks by `let .. else`.
#[derive(Clone, Copy)]
pub enum Number {
    Found(u32, usize),
    Refused(Fault),
}

// The groups behind the first, from `at` on, where k more may follow this one.
#[tactic(auto, using(crate::proofs::Groups::bytes_read), unfolding(crate::specs::Number::more_groups, crate::specs::Number::before))]
fn groups(bytes: &[u8], at: usize, k: u32) -> Number
    requires { k ≤ 3 }
    ensures { said result ≡ as_number (length bytes.now) (more_groups k (drop at bytes.now)) }
{
    if bytes.len() <= at {
        return Number::Refused(Fault::Cut);
    }
    let b = u32::from(bytes[at]);
    if b == 0 {
        return Number::Refused(Fault::LongForm);
    }
    if k == 0 {
        if b <= 15 {
            return Number::Found(b, at + 1);
        }
        return Number::Refused(Fault::LongForm);
    }
    if b < 128 {
        return Number::Found(b, at + 1);
    }
    let rest = groups(bytes, at + 1, k - 1);
    let Number::Found(n, next) = rest else {
        return rest;
    };
    Number::Found(b - 128 + 128 * n, next)
}

// The number whose lowest group is `low`, with its other groups from `at` on. Inlined, and apart from `number_at`: there the room for what `groups`
// gives back was cleared for each number, also for one of a single byte, and reading short records took up to a quarter longer.
#[inline(always)]
#[tactic(auto, using(crate::proofs::Groups::bytes_read), unfolding(crate::specs::Number::before))]
fn long_number(bytes: &[u8], at: usize, low: u32) -> Number
    requires { low < 128 }
    ensures { said result ≡ as_number (length bytes.now) (before low (more_groups 3 (drop at bytes.now))) }
{
    let rest = groups(bytes, at, 3);
    let Number::Found(n, next) = rest else {
        return rest;
    };
    Number::Found(low + 128 * n, next)
}

// The number that begins at `at`: 20 where the bytes end inside it, 21 for a long form or more than 32 bits.
#[tactic(auto, using(crate::proofs::Groups::bytes_read), unfolding(crate::specs::Number::number, crate::specs::Number::before))]
pub(crate) fn number_at(bytes: &[u8], at: usize) -> Number
    ensures { said result ≡ as_number (length bytes.now) (number (drop at bytes.now)) }
{
    if bytes.len() <= at {
        return Number::Refused(Fault::Cut);
    }
    let b = u32::from(bytes[at]);
    if b < 128 {
        return Number::Found(b, at + 1);
    }
    long_number(bytes, at + 1, b - 128)
}

// What refuses a number that was not found.
pub(crate) fn refusal(n: Number) -> Fault
    requires { (f : Fault) × (n ≡ Refused f) }
    ensures { n ≡ Refused result }
{
    match n {
        Number::Found(_, _) => unreachable!(),
        Number::Refused(f) => f,
    }
}
