// Lines of numbers.
ghost use Rattle.std.specs.Prelude.{◌≡◌, false, ℕ, ◌≤◌, ◌<◌, get_or, replicate};
ghost use Rattle.circuit_line.specs.Numbers.{LineWithin, line_as, number_list, numbers_as, plain_line};

use text::number::Number;
use text::search::Found;

// The numbers of a line, at most five, and 0 behind them; or that it has others.
#[derive(Clone, Copy)]
pub struct Numbers {
    pub right: bool,
    pub values: [usize; 5],
}

fn wrong() -> Numbers
    ensures answer { result ≡ record { right = false; values = replicate 5 0 } }
{
    Numbers {
        right: false,
        values: [0; 5],
    }
}

// So many numbers, with single spaces between them.
pub fn read_numbers(text: &[u8], count: usize) -> Numbers
    requires { (1 ≤ count) × (count ≤ 5) }
    ensures answer { numbers_as count result ≡ number_list count text.now }
    ensures small { (i : ℕ) → get_or result.values i 0 < 100000 }
    ensures unused { (i : ℕ) → count ≤ i → get_or result.values i 0 ≡ 0 }
{
    let mut values = [0; 5];
    let mut rest = text;
    let mut k = 0;
    while k + 1 < count {
        let Found::At(space) = text::search::find(rest, b' ') else {
            return wrong();
        };
        let Number::Is(n) = text::number::read_number(&rest[..space]) else {
            return wrong();
        };
        values[k] = n;
        rest = &rest[space + 1..];
        k += 1;
    }
    let Number::Is(n) = text::number::read_number(rest) else {
        return wrong();
    };
    values[k] = n;
    Numbers {
        right: true,
        values,
    }
}

// The numbers of a line, up to three, and 0 behind them, with where the next line begins; or that the line is not so many numbers.
#[derive(Clone, Copy)]
pub enum LineRead {
    Line(usize, usize, usize, usize),
    Wrong,
}

// The first line of what is left of a file: so many numbers.
pub fn read_line(rest: &[u8], count: usize) -> LineRead
    requires { (1 ≤ count) × (count ≤ 3) }
    ensures answer { line_as count result ≡ plain_line (number_list count) rest.now }
    ensures within { LineWithin count rest.now result }
{
    let Found::At(end) = text::search::find(rest, b'\n') else {
        return LineRead::Wrong;
    };
    let numbers = read_numbers(&rest[..end], count);
    if !numbers.right {
        return LineRead::Wrong;
    }
    let values = numbers.values;
    LineRead::Line(values[0], values[1], values[2], end + 1)
}
