// The collector's rules on a struct by value and the lent columns, and what they share with the requests: shading, and a new
// tuple. Each method is the rule of that name in crate rules. Document 01's list of code forms wants methods on `mut self` that hand the
// changed state back. Each takes, beside the state, only the columns that it needs and says that they have the stated lengths: so its promise
// holds whatever the other columns are, which a struct of all of them, with that as its invariant, would not say.
#![tactic(auto)]

mod cycle;
mod mark;
mod place;
mod relocate;
mod root;
mod shade;
mod state;
mod sweep;
mod tuple;
mod word;

pub use place::reaches;
pub use state::{Answer, Answered, State};
pub use tuple::packed;
pub use word::Word;
