// Take files: reading them, and checking a trace that is handed over as a table (01, "The files").
#![tactic(auto)]

pub mod check;
pub mod ending;
pub mod take;
