// The truth of each row of a normal form at each cycle of a recording.
#![tactic(auto)]

pub mod fill;
pub mod open;
