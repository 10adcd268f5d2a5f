// The memory unit: a memory of tagged words, a directory of tuples, eight registers, and a collector that does one small step at a
// time. All of it is lent, as a `MemoryUnit` of crate lent; `step_parts` and `run_parts` are for a caller that has the hold only to read. What each
// call does is said in crate rules; none of them requires anything of its caller.
#![tactic(auto)]

mod asking;
mod links;
mod opening;

pub use asking::request;
pub use opening::open;
pub use steps::{Ran, run, run_parts, step, step_parts};
