// The tables that every layer works on: a formula (01's rule), a trace (01's take), an activation table (01's sheet), a run, and
// the refusals. A table is a struct by value; its numbers are as small as their ranges allow.
#![tactic(auto)]

pub mod kind;
pub mod refusal;
pub mod row;
pub mod run;
pub mod trace;
