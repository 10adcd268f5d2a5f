// The collector's single steps and runs on the lent parts.
#![tactic(auto)]

mod parts;
mod running;
mod stepping;

pub use parts::{run_parts, step_parts};
pub use running::{Ran, run};
pub use stepping::{step, stepped};
