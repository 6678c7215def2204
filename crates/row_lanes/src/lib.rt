// The lanes of rows: at which cycles of an open take a row is strongly true, from the lanes of its operands.
#![tactic(auto)]

pub mod row;
