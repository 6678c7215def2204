// Lines of digits 0 and 1: the cycles of a take and the rows of a sheet.
ghost use Rattle.std.specs.Prelude.{◌≡◌, [], ◌∷◌};
ghost use Rattle.text.specs.Line.{is_numbered, keyed_line};
ghost use Rattle.text.specs.Digits.{DigitsWithin, are_digits, digits_form, digits_at};

use crate::search::Found;

// Where the digits of a line begin and end.
#[derive(Clone, Copy)]
pub enum Digits {
    At(usize, usize),
    Wrong,
}

// Whether a byte is 0 or 1.
fn is_digit(d: u8) -> bool
    ensures answer { result ≡ are_digits (d ∷ []) }
{
    (b'0' <= d) & (d <= b'1')
}

// Whether each byte is 0 or 1. No branch depends on a byte, so that the compiler can treat many bytes at a time.
pub fn are_digits(value: &[u8]) -> bool
    ensures answer { result ≡ are_digits value.now }
{
    let mut all = true;
    let mut i = 0;
    while i < value.len() {
        all = all & is_digit(value[i]);
        i += 1;
    }
    all
}

// A line of so many digits, with the key of a letter and a number. The count says where the line feed has to stand, so that the
// digits are gone through once.
pub fn digits_line(rest: &[u8], letter: u8, number: usize, count: usize) -> Digits
    requires { letter ≡ 10 → ⊥ }
    ensures answer { digits_at rest.now result ≡ keyed_line (is_numbered letter number) (digits_form count) rest.now }
    ensures within { DigitsWithin rest.now count result }
{
    let Found::At(equals) = crate::search::find(rest, b'=') else {
        return Digits::Wrong;
    };
    if !crate::line::is_numbered(&rest[..equals], letter, number) {
        return Digits::Wrong;
    }
    let from = equals + 1;
    if rest.len() - from <= count {
        return Digits::Wrong;
    }
    let end = from + count;
    if rest[end] != b'\n' {
        return Digits::Wrong;
    }
    if !are_digits(&rest[from..end]) {
        return Digits::Wrong;
    }
    Digits::At(from, end)
}
