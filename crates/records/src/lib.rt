// A case's record, and what is printed of a case: shared by the crates that run the outside cases.
#![tactic(auto)]

pub mod input;
pub mod kinds;
pub mod places;
pub mod text;
