// The line that says where a trace goes on after its last cycle.
ghost use Rattle.std.specs.Prelude.{◌≡◌, ◌≤◌};
ghost use Rattle.tables.specs.Bytes.{bytes};
ghost use Rattle.text.specs.Line.{is_key, keyed_line};
ghost use Rattle.take_file.specs.Ending.{ending_line_as, ending_value, reason_of};

use tables::refusal::Reason;
use tables::trace::Ending;
use text::line::Cut;
use text::number::Number;

// Where the trace goes on, with where the next line begins; or the reason to refuse the line.
#[derive(Clone, Copy)]
pub enum EndingLine {
    Ending(Ending, usize),
    Wrong(Reason),
}

// The line `loop=none`, or `loop=` and a cycle below `cycles`.
pub fn ending_line(rest: &[u8], cycles: usize) -> EndingLine
    requires { cycles ≤ 256 }
    ensures answer { ending_line_as result ≡ keyed_line (is_key (bytes "loop")) (ending_value cycles) rest.now }
{
    let Cut::Line(equals, end) = text::line::cut_line(rest) else {
        return EndingLine::Wrong(Reason::WrongForm);
    };
    if !text::search::same(&rest[..equals], b"loop") {
        return EndingLine::Wrong(Reason::WrongForm);
    }
    let value = &rest[equals + 1..end];
    if text::search::same(value, b"none") {
        return EndingLine::Ending(Ending::Open, end + 1);
    }
    let Number::Is(cycle) = text::number::read_padded(value) else {
        return EndingLine::Wrong(Reason::WrongForm);
    };
    if cycles <= cycle {
        return EndingLine::Wrong(Reason::BadLoop);
    }
    EndingLine::Ending(Ending::Loop(cycle as u16), end + 1)
}

// Why the line is refused.
pub fn ending_reason(line: EndingLine) -> Reason
    ensures answer { result ≡ reason_of line }
{
    match line {
        EndingLine::Ending(_, _) => Reason::WrongForm,
        EndingLine::Wrong(reason) => reason,
    }
}
