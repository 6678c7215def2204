// Findings, and the answers that hold them.
use tables::refusal::Refusal;

// What a check finds (01, "Monitors"), with row and cycle where it has them.
#[derive(Clone, Copy)]
pub enum Finding {
    Root,
    Failed(u8, u16),
    Starved(u8),
    Pending(u8),
    Passes,
}

#[derive(Clone, Copy)]
pub enum CheckAnswer {
    Refused(Refusal),
    Checked(Finding),
}
