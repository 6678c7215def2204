// The digits of one row.
ghost use Rattle.std.specs.Prelude.{◌≡◌, false, ◌+◌, ◌*◌, ◌≤◌, ◌<◌, eqb, length, get_or};
ghost use Rattle.tables.specs.Bit.{word_from};
ghost use Rattle.tables.specs.Choice.{pick};
ghost use Rattle.text.specs.Digits.{digits_in};
ghost use Rattle.sheet_file.specs.Sheet.{row_lane};

use tables::trace::Lane;

fn bit(digit: u8) -> u64
    ensures answer { result ≡ pick (eqb digit 49) 1 0 }
    ensures room { result ≤ 1 }
{
    if digit == b'1' { 1 } else { 0 }
}

// The word of so many digits from a place on. It goes from the last digit down, so that each one is put in front by a doubling; no
// branch depends on a digit.
fn digits_to_word(value: &[u8], from: usize, count: usize) -> u64
    requires { (count ≤ 64) × (from + count ≤ length value.now) }
    ensures answer { result ≡ word_from count from (λ c. get_or (digits_in value.now) c false) }
{
    let mut word = 0;
    for digit in value[from..from + count].iter().rev() {
        word = word * 2 + bit(*digit);
    }
    word
}

// Word i of a row: that of up to 64 digits. A whole word has its own call, whose count the compiler knows.
fn row_word(value: &[u8], i: usize) -> u64
    requires { i < 4 }
    ensures answer { result ≡ word_from 64 (i * 64) (λ c. get_or (digits_in value.now) c false) }
{
    let from = i * 64;
    if value.len() <= from {
        return 0;
    }
    let count = value.len() - from;
    if count < 64 {
        return digits_to_word(value, from, count);
    }
    digits_to_word(value, from, 64)
}

// The lane of a row: the bit of a cycle is set where its digit is 1.
pub fn digits_to_lane(value: &[u8]) -> Lane
    requires { length value.now ≤ 256 }
    ensures answer { result ≡ row_lane (digits_in value.now) }
{
    Lane {
        words: [
            row_word(value, 0),
            row_word(value, 1),
            row_word(value, 2),
            row_word(value, 3),
        ],
    }
}
