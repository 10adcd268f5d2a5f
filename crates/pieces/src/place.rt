// Where the playing of a record stands between two pieces, and what is to be done next.
use rules::Request;

#[derive(Clone, Copy)]
pub struct Place {
    // 0 nothing is read yet, 1 opened and playing, 2 only reading after a 10, 3 at the end, 4 over, as all above. A number, and no enum:
    // the call `player::play` takes any place, and its promise speaks of any stage.
    pub stage: u32,
    // How many records were read; it stays at 4,294,967,296 once there.
    pub count: u64,
    // Single steps of kind 11 that are still to be done.
    pub left: u32,
    // Whether a box was opened.
    pub opened: bool,
}

#[derive(Clone, Copy)]
pub enum Deed {
    // Print this number.
    Say(u32),
    // Do a single step, and print its answer.
    Step,
    // Ask this, and print the answer.
    Ask(Request),
    // Print nothing.
    Silent,
}
