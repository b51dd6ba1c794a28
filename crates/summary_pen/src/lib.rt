// What the summary tells of one thing, as text or as CSV, put behind what was told before into lent octets.
#![tactic(auto)]

pub mod forms;
mod lines;
pub mod pen;
