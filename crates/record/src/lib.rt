// The record of a run: its numbers as bytes, its reader and its writer, and the request that a record's kind and fields ask for.
#![tactic(auto)]

mod asked;
mod entry;
mod kinds;
mod number;
mod reading;
mod writing;

pub use asked::request_of;
pub use entry::{Entry, head_of, record_at};
pub use number::Fault;
pub use reading::{Got, read};
pub use writing::{WriteFault, write};
