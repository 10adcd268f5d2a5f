// The public call for requests.
ghost use Rattle.std.specs.Prelude.{◌≡◌};
ghost use Rattle.rules.specs.Box.{reply};
ghost use Rattle.rules.specs.Request.{request};
ghost use Rattle.lent.specs.Lent.{box_of, SameReferences};

use lent::MemoryUnit;
use requests::requested;
use rules::Request;

// One request. Answers 9 where the box is not sound, 1 for a register above 7, 6 while a request is held, and otherwise as its kind
// does; every refusal leaves all as it was found.
pub fn request(unit: &mut MemoryUnit<'_>, q: Request) -> u32
    ensures same_references { SameReferences unit.old unit.new }
    ensures answered { reply (box_of unit.new) result ≡ request q (box_of unit.old) }
{
    let right = unit.is_sound();
    requested(unit, right, q)
}
