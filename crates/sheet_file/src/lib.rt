// Sheet files: reading them, and checking an activation table that is handed over (01, "The files").
#![tactic(auto)]

pub mod check;
pub mod row;
pub mod sheet;
