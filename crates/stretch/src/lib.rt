// What readers of streams find between two marks.
#![tactic(auto)]

use answer::Reason;

// How many octets of a frame a reader keeps: the longest frame and one more.
pub const KEPT: usize = 275;

// What was found.
#[derive(Clone, Copy)]
pub enum Found {
    // Nothing that uses an arrival number.
    Nothing,
    // A frame: so many of the octets kept, from the first on.
    Frame(usize),
    // A stretch that is refused before any frame can be read.
    Refused(Reason),
}
