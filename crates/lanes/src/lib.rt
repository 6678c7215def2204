// Lanes of bits, 64 cycles at a time.
#![tactic(auto)]

pub mod lane;
pub mod word;
