// The collector's phases on the lent parts: the look at the registers, the nine phases, the rule that the phase picks, and the steps that
// only go through a tuple's words.
#![tactic(auto)]

mod choice;
mod look;
mod phases;
mod words;

pub use choice::rule;
pub use words::word_step;
