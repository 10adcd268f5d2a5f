// What all calls share: the lent arrays as the collector's struct, the registers, a new tuple, and what is tested first.
#![tactic(auto)]

mod arrays;
mod limits;
mod registers;
mod tuple;
mod unit;

pub use arrays::{put_lists, put_room, put_switches, put_walk, taken};
pub use unit::MemoryUnit;
