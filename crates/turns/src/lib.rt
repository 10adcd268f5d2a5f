// The opening of a part of the lent columns; and the next thing to do, done on the lent parts, turn by turn.
#![tactic(auto)]

mod opening;
mod playing;

pub use opening::open_first;
pub use playing::{Went, play_on};
