// Lines of circuit files: the numbers in them, and which line is possible behind the lines before it (02, 4).
#![tactic(auto)]

pub mod numbers;
pub mod section;
