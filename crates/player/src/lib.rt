// Playing a record on the memory unit, in pieces: the public call.
#![tactic(auto)]

mod calls;

pub use calls::play;
pub use pieces::Place;
pub use turns::Went;
