// Rows and the file of a normal form into lent buffers.
#![tactic(auto)]

pub mod normal;
pub mod row;
