// What the numbers of a call ask for.
ghost use Rattle.std.specs.Prelude.{◌≡◌};
ghost use Rattle.record.specs.Requests.{request_of};
ghost use Rattle.record.specs.Asked.{asked_as, half_as};

use rules::Request;

// A 16-bit field; None where the number is above 65,535.
fn half(x: u32) -> Option<u16>
    ensures { result ≡ half_as x }
{
    u16::try_from(x).ok()
}

// The request of a kind's number, with its fields in document 01's order; fields that a kind does not have are passed over.
// None where the kind is not 1 to 10, or a 16-bit field is above 65,535.
#[tactic(auto, unfolding(crate::specs::Requests::request_of))]
pub fn request_of(kind: u32, a: u32, b: u32, c: u32) -> Option<Request>
    ensures { result ≡ asked_as (request_of kind a b c) }
{
    match kind {
        1 => Some(Request::Setd { r: half(a)?, v: b }),
        2 => Some(Request::Nil { r: half(a)? }),
        3 => Some(Request::Move {
            r: half(a)?,
            s: half(b)?,
        }),
        4 => Some(Request::Advance {
            r: half(a)?,
            n: half(b)?,
        }),
        5 => Some(Request::Getm {
            r: half(a)?,
            n: half(b)?,
            tag: half(c)?,
        }),
        6 => Some(Request::Load {
            r: half(a)?,
            s: half(b)?,
            k: half(c)?,
        }),
        7 => Some(Request::Store {
            r: half(a)?,
            s: half(b)?,
            k: half(c)?,
        }),
        8 => Some(Request::Size {
            r: half(a)?,
            s: half(b)?,
        }),
        9 => Some(Request::Tag {
            r: half(a)?,
            s: half(b)?,
        }),
        10 => Some(Request::Same {
            r: half(a)?,
            s: half(b)?,
            t: half(c)?,
        }),
        _ => None,
    }
}
