// The answer of a service that writes into a lent buffer, or that says how much there is to write.
use tables::refusal::Refusal;

// How many bytes, or the refusal.
#[derive(Clone, Copy)]
pub enum Bytes {
    Count(usize),
    Refused(Refusal),
}
