// Single steps of a record, each with its answer as a line.
#![tactic(auto)]

mod stepping;

pub use stepping::step_lines;
