// Verdicts, and the answers that hold them.
use tables::refusal::Refusal;

// A looped take holds or breaks; an open one is kept, broken or open.
#[derive(Clone, Copy)]
pub enum Verdict {
    Holds,
    Breaks,
    Kept,
    Broken,
    Open,
}

#[derive(Clone, Copy)]
pub enum Answer {
    Judged(Verdict),
    Refused(Refusal),
}
