// What is to be done next with the bytes of a record at hand, and an answer as text. What playing prints is said in specs/, and that it is
// the same wherever the bytes are cut is a theorem there.
#![tactic(auto)]

mod moves;
mod place;
mod text;

pub use moves::{Move, next_move};
pub use place::{Deed, Place};
pub use text::put_line;
