// The rules of the memory unit, as definitions in specs/. The only code is the type of a request.
#![tactic(auto)]

mod kinds;

pub use kinds::Request;
