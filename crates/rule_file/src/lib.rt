// Rule files: reading them, and checking a formula that is handed over as a table (01, "The files").
#![tactic(auto)]

pub mod check;
pub mod rule;
