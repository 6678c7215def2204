// Runs: a take judged while it is recorded (02, request 1).
use crate::row::Formula;

// A run: its rule, and the cycles so far as a recording holds them: word 32 * b + s has the cycles from 64 * b on of signal s, both
// counted from 0.
#[derive(Clone, Copy)]
pub struct Run {
    pub formula: Formula,
    pub cycles: u16,
    pub words: [u64; 128],
}
