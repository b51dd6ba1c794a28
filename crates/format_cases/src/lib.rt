// The cases of frames, packets and reports.
#![tactic(auto)]

pub mod frames;
pub mod packets;
pub mod reports;
