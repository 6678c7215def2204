// Texts into lent buffers: the pieces that every writing service is made of.
#![tactic(auto)]

pub mod answer;
pub mod deliver;
pub mod length;
pub mod line;
pub mod put;
