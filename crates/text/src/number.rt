// Numbers as the files write them.
ghost use Rattle.std.specs.Prelude.{◌≡◌, [], ◌∷◌};
ghost use Rattle.text.specs.Number.{digits_of, number_of, padded_of};

// A number as the files write it, or that the bytes are none.
#[derive(Clone, Copy)]
pub enum Number {
    Is(usize),
    Not,
}

// The number that up to five decimal digits stand for.
fn read_digits(s: &[u8]) -> Number
    ensures answer { result ≡ digits_of s.now }
{
    if 5 < s.len() {
        return Number::Not;
    }
    let mut value: usize = 0;
    let mut i = 0;
    while i < s.len() {
        let d = s[i];
        if d < b'0' {
            return Number::Not;
        }
        if b'9' < d {
            return Number::Not;
        }
        value = value * 10 + (d as usize - 48);
        i += 1;
    }
    Number::Is(value)
}

// The number that one decimal digit stands for.
fn read_digit(d: u8) -> Number
    ensures answer { result ≡ digits_of (d ∷ []) }
{
    if d < b'0' {
        return Number::Not;
    }
    if b'9' < d {
        return Number::Not;
    }
    Number::Is(d as usize - 48)
}

// A number in a value: one to five digits, the first of which may be zeros. Most have one digit, and need no loop.
pub fn read_padded(s: &[u8]) -> Number
    ensures answer { result ≡ padded_of s.now }
{
    if s.len() == 0 {
        return Number::Not;
    }
    if s.len() == 1 {
        return read_digit(s[0]);
    }
    read_digits(s)
}

// A number in a key: no zero stands before another digit.
pub fn read_number(s: &[u8]) -> Number
    ensures answer { result ≡ number_of s.now }
{
    if 1 < s.len() {
        if s[0] == b'0' {
            return Number::Not;
        }
    }
    read_padded(s)
}
