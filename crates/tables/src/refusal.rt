// Why a file or a call is turned back (01: "Why a file is turned back"; 02 goes on with 11).
ghost use Rattle.std.specs.Prelude.{◌≡◌};
ghost use Rattle.tables.specs.Refusal.{and_then, call_refused, number};

#[derive(Clone, Copy)]
pub enum Reason {
    TooLong,
    WrongForm,
    WrongFormat,
    CountOutOfRange,
    BadReference,
    BadLoop,
    SignalsDiffer,
    WrongEnding,
    SizeDiffers,
    ShortBuffer,
    TooManyCycles,
}

// A refusal: its reason, the file (1 rule or circuit, 2 take, 3 sheet, 0 none) and the line from 1 (0 none).
#[derive(Clone, Copy)]
pub struct Refusal {
    pub reason: Reason,
    pub file: u8,
    pub line: usize,
}

#[derive(Clone, Copy)]
pub enum Outcome {
    Accepted,
    Refused(Refusal),
}

// The number of a reason in the list.
pub fn reason_number(reason: Reason) -> u8
    ensures answer { result ≡ number reason }
{
    match reason {
        Reason::TooLong => 1,
        Reason::WrongForm => 2,
        Reason::WrongFormat => 3,
        Reason::CountOutOfRange => 4,
        Reason::BadReference => 5,
        Reason::BadLoop => 6,
        Reason::SignalsDiffer => 7,
        Reason::WrongEnding => 8,
        Reason::SizeDiffers => 9,
        Reason::ShortBuffer => 10,
        Reason::TooManyCycles => 11,
    }
}

// A call is refused where no file is at fault.
pub fn call_refused(reason: Reason) -> Outcome
    ensures answer { result ≡ call_refused reason }
{
    Outcome::Refused(Refusal {
        reason,
        file: 0,
        line: 0,
    })
}

// Checks one after the other: the first that refuses.
pub fn first_refusal(first: Outcome, second: Outcome) -> Outcome
    ensures outcome { result ≡ and_then first second }
{
    match first {
        Outcome::Accepted => second,
        Outcome::Refused(refusal) => Outcome::Refused(refusal),
    }
}
