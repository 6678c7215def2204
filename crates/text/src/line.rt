// Lines: a key, an equals sign, a value and a line feed.
ghost use Rattle.std.specs.Prelude.{◌≡◌};
ghost use Rattle.text.specs.Line.{cut_of, is_numbered, is_key, keyed_line};
ghost use Rattle.text.specs.Count.{count_form, counted_as, reason_of};

use crate::number::Number;
use crate::search::Found;
use tables::refusal::Reason;

// Where the equals sign and the line feed of the first line stand.
#[derive(Clone, Copy)]
pub enum Cut {
    Line(usize, usize),
    Absent,
}

// The first line of what is left of a file.
pub fn cut_line(rest: &[u8]) -> Cut
    ensures answer { result ≡ cut_of rest.now }
{
    let Found::At(end) = crate::search::find(rest, b'\n') else {
        return Cut::Absent;
    };
    let Found::At(equals) = crate::search::find(&rest[..end], b'=') else {
        return Cut::Absent;
    };
    Cut::Line(equals, end)
}

// Whether a key is a letter and a number, as `r12`.
pub fn is_numbered(key: &[u8], letter: u8, number: usize) -> bool
    ensures answer { result ≡ is_numbered letter number key.now }
{
    if key.len() == 0 {
        return false;
    }
    if key[0] != letter {
        return false;
    }
    let Number::Is(n) = crate::number::read_number(&key[1..]) else {
        return false;
    };
    n == number
}

// A count, with where the next line begins; or the reason to refuse the line.
#[derive(Clone, Copy)]
pub enum Counted {
    Count(usize, usize),
    Wrong(Reason),
}

// A line `key=number`, with the number from low to high.
pub fn count_line(rest: &[u8], key: &[u8], low: usize, high: usize, outside: Reason) -> Counted
    ensures answer { counted_as result ≡ keyed_line (is_key key.now) (count_form low high outside) rest.now }
{
    let Cut::Line(equals, end) = cut_line(rest) else {
        return Counted::Wrong(Reason::WrongForm);
    };
    if !crate::search::same(&rest[..equals], key) {
        return Counted::Wrong(Reason::WrongForm);
    }
    let Number::Is(n) = crate::number::read_padded(&rest[equals + 1..end]) else {
        return Counted::Wrong(Reason::WrongForm);
    };
    if n < low {
        return Counted::Wrong(outside);
    }
    if high < n {
        return Counted::Wrong(outside);
    }
    Counted::Count(n, end + 1)
}

// Why a count's line is refused.
pub fn count_reason(counted: Counted) -> Reason
    ensures answer { result ≡ reason_of counted }
{
    match counted {
        Counted::Count(_, _) => Reason::WrongForm,
        Counted::Wrong(reason) => reason,
    }
}
