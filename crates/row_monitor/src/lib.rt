// The monitor of one row along a take, with the lanes that it reads.
#![tactic(auto)]

pub mod row;
pub mod word;
