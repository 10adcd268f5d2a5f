// The ten requests on the memory unit, each for registers that are 0 to 7 in a sound box; and any request of a box of which it is known
// whether it is sound.
#![tactic(auto)]

mod data;
mod find;
mod order;
mod place;
mod reading;
mod refusal;
mod storing;
mod tuple;

pub use order::requested;
