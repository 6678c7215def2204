// From bytes to numbers, keys and lines: what the three file formats have in common (01, "The files").
#![tactic(auto)]

pub mod digits;
pub mod line;
pub mod number;
pub mod search;
