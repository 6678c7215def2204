// The line of a row.
#![tactic(auto)]

ghost use Rattle.std.specs.Prelude.{◌≡◌, ◌≤◌};
ghost use Rattle.tables.specs.Kind.{with_numbers};
ghost use Rattle.text.specs.Line.{is_numbered, keyed_line};
ghost use Rattle.rule_row.specs.Row.{form_as, form_of, in_range, is_operand, is_signal, kind_named, reason_of, row_form, row_line_as, row_value};

use tables::kind;
use tables::refusal::Reason;
use tables::row::Row;
use text::line::Cut;
use text::number::Number;
use text::search::Found;

// The place in the table of the kind that has this word.
fn kind_named(word: &[u8]) -> Found
    ensures answer { result ≡ kind_named word.now }
{
    let kinds = kind::table();
    let mut place = 0;
    while place < kind::KIND_COUNT {
        let kind = kinds[place];
        let bytes = kind.word;
        let length = kind.length;
        if text::search::same(word, &bytes[..length]) {
            return Found::At(place);
        }
        place += 1;
    }
    Found::Nothing
}

// A row as its line's value has it: the kind's row and the numbers behind the word, which may lie outside their ranges and
// so may not fit a row.
#[derive(Clone, Copy)]
pub enum RowForm {
    Form(Row, usize, usize),
    Formless,
}

// A word with so many numbers behind it.
fn form_of(word: &[u8], count: usize, first: usize, second: usize) -> RowForm
    ensures answer { form_as result ≡ form_of word.now count first second }
{
    let Found::At(place) = kind_named(word) else {
        return RowForm::Formless;
    };
    let kind = kind::kind_at(place);
    let row = kind.row;
    if kind::numbers_in(row) != count {
        return RowForm::Formless;
    }
    RowForm::Form(row, first, second)
}

// The value of a row's line: a word and none, one or two numbers, with single spaces between them.
fn row_form(value: &[u8]) -> RowForm
    ensures answer { form_as result ≡ row_form value.now }
{
    let Found::At(space) = text::search::find(value, b' ') else {
        return form_of(value, 0, 0, 0);
    };
    let word = &value[..space];
    let numbers = &value[space + 1..];
    let Found::At(between) = text::search::find(numbers, b' ') else {
        let Number::Is(only) = text::number::read_padded(numbers) else {
            return RowForm::Formless;
        };
        return form_of(word, 1, only, 0);
    };
    let Number::Is(first) = text::number::read_padded(&numbers[..between]) else {
        return RowForm::Formless;
    };
    let Number::Is(second) = text::number::read_padded(&numbers[between + 1..]) else {
        return RowForm::Formless;
    };
    form_of(word, 2, first, second)
}

fn is_signal(signals: usize, s: usize) -> bool
    ensures answer { result ≡ is_signal signals s }
{
    if s == 0 {
        return false;
    }
    s <= signals
}

fn is_operand(number: usize, a: usize) -> bool
    ensures answer { result ≡ is_operand number a }
{
    if a == 0 {
        return false;
    }
    a < number
}

// Whether these numbers lie in the ranges that a row of this kind has in row place `number`.
pub fn in_range(signals: usize, number: usize, row: Row, first: usize, second: usize) -> bool
    ensures answer { result ≡ in_range signals number (with_numbers row first second) }
{
    match row {
        Row::Constant(_) => true,
        Row::Signal(_, _) => is_signal(signals, first),
        Row::Unary(_, _) => is_operand(number, first),
        Row::Binary(_, _, _) => {
            if !is_operand(number, first) {
                return false;
            }
            is_operand(number, second)
        }
    }
}

// A row, with where the next line begins; or the reason to refuse the line.
#[derive(Clone, Copy)]
pub enum RowLine {
    Row(Row, usize),
    Wrong(Reason),
}

// The line of row `number`.
pub fn row_line(rest: &[u8], number: usize, signals: usize) -> RowLine
    requires { (number ≤ 64) × (signals ≤ 32) }
    ensures answer { row_line_as result ≡ keyed_line (is_numbered 114 number) (row_value signals number) rest.now }
{
    let Cut::Line(equals, end) = text::line::cut_line(rest) else {
        return RowLine::Wrong(Reason::WrongForm);
    };
    if !text::line::is_numbered(&rest[..equals], b'r', number) {
        return RowLine::Wrong(Reason::WrongForm);
    }
    let RowForm::Form(row, first, second) = row_form(&rest[equals + 1..end]) else {
        return RowLine::Wrong(Reason::WrongForm);
    };
    if !in_range(signals, number, row, first, second) {
        return RowLine::Wrong(Reason::BadReference);
    }
    let small = kind::with_numbers(row, (first % 256) as u8, (second % 256) as u8);
    RowLine::Row(small, end + 1)
}

// Why a row's line is refused.
pub fn row_reason(line: RowLine) -> Reason
    ensures answer { result ≡ reason_of line }
{
    match line {
        RowLine::Row(_, _) => Reason::WrongForm,
        RowLine::Wrong(reason) => reason,
    }
}
