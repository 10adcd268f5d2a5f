// Why a request is refused.
ghost use Rattle.std.specs.Prelude.{◌≡◌};
ghost use Rattle.requests.specs.Refused.{number};

// The refusals, by the numbers that document 01's table of answers gives them.
#[derive(Clone, Copy, PartialEq, Eq)]
pub enum Refusal {
    // A register above 7.
    NoRegister = 1,
    // Data where a pointer is wanted.
    Data = 2,
    // Nil, or a word beyond the tuple's size.
    Beyond = 3,
    // An offset past 65,535.
    TooFar = 4,
    // A tuple that no memory of this size has room for.
    TooLarge = 5,
    // A request is held.
    Held = 6,
    // No room now: the request is held from here on.
    NoRoom = 7,
    // Sizes, lengths or phase are wrong; or what would be looked up, touched or formed lies outside.
    Outside = 9,
}

impl Refusal {
    // Its number. A method and no `From`: its clause names the definition of the numbers.
    pub(crate) fn number(self) -> u32
        ensures { result ≡ number self }
    {
        self as u32
    }
}
