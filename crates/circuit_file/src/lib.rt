// Circuit files: ASCII AIGER without symbols or comments (02, 4).
#![tactic(auto)]

ghost use Rattle.std.specs.Prelude.{◌≡◌, [], ◌≤◌, length};
ghost use Rattle.text.specs.Result.{map_result};
ghost use Rattle.text.specs.Result.Result.{refused};
ghost use Rattle.circuit_file.specs.File.{HeaderWithin, SmallHeader, circuit_answer, circuit_lines, header_as, header_form};
ghost use Rattle.circuit_file.specs.File.{lines_in, contents_of, parse_contents};
ghost use Rattle.circuit_line.specs.Numbers.{plain_line};

use circuit_line::numbers::LineRead;
use circuit_line::section::Header;
use tables::refusal::{Outcome, Reason, Refusal};
use text::search::Found;

// A circuit in memory: the header, and the numbers of the lines behind it, one after the other: of an input its literal; of a latch its
// literal and the next one; of an output its literal; of a gate its left side and its two operands. Behind them stands 0.
#[derive(Clone, Copy)]
pub struct CircuitTable {
    pub header: Header,
    pub numbers: [u32; 32770],
}

// What reading a circuit file gives. (The table holds an array, so it stands beside the outcome; a refusal leaves it empty.)
#[derive(Clone, Copy)]
pub struct CircuitAnswer {
    pub outcome: Outcome,
    pub table: CircuitTable,
}

// A refusal of a circuit file.
fn refuse(reason: Reason, line: usize) -> CircuitAnswer
    ensures answer { result ≡ circuit_answer (refused reason line) }
{
    CircuitAnswer {
        outcome: Outcome::Refused(Refusal {
            reason,
            file: 1,
            line,
        }),
        table: CircuitTable {
            header: Header {
                maximum: 0,
                inputs: 0,
                latches: 0,
                outputs: 0,
                gates: 0,
            },
            numbers: [0; 32770],
        },
    }
}

// The header, with where the next line begins; or that the line is none.
#[derive(Clone, Copy)]
pub enum HeaderRead {
    Header(Header, usize),
    Wrong,
}

// The first line: `aag M I L O A`.
fn read_header(file: &[u8]) -> HeaderRead
    ensures answer { header_as result ≡ plain_line header_form file.now }
    ensures within { HeaderWithin file.now result }
{
    let Found::At(end) = text::search::find(file, b'\n') else {
        return HeaderRead::Wrong;
    };
    if end < 4 {
        return HeaderRead::Wrong;
    }
    if !text::search::same(&file[..4], b"aag ") {
        return HeaderRead::Wrong;
    }
    let numbers = circuit_line::numbers::read_numbers(&file[4..end], 5);
    if !numbers.right {
        return HeaderRead::Wrong;
    }
    let values = numbers.values;
    if values[0] != values[1] + values[2] + values[4] {
        return HeaderRead::Wrong;
    }
    let header = Header {
        maximum: values[0],
        inputs: values[1],
        latches: values[2],
        outputs: values[3],
        gates: values[4],
    };
    HeaderRead::Header(header, end + 1)
}

// The lines behind the header, and nothing behind them. Which variables are defined is kept by their index: a literal has five digits
// at most, so a variable is below 50,000. Where a line has fewer than three numbers, 0 is put behind them, which stood there before.
fn read_lines(body: &[u8], header: Header) -> CircuitAnswer
    requires { SmallHeader header × (length body.now ≤ 65536) }
    ensures answer { result ≡ circuit_answer (map_result (contents_of header)
        (circuit_lines header (lines_in header) [] [] body.now)) }
{
    let maximum = header.maximum;
    let total = header.inputs + header.latches + header.outputs + header.gates;
    let mut rest = body;
    let mut numbers = [0; 32770];
    let mut used = 0;
    let mut taken = [false; 50000];
    let mut k = 0;
    while k < total {
        let section = circuit_line::section::section_of(header, k);
        let count = circuit_line::section::width(section);
        let LineRead::Line(literal, first, second, next) = circuit_line::numbers::read_line(
            rest, count,
        ) else {
            return refuse(Reason::WrongForm, k + 2);
        };
        let variable = literal / 2;
        let before = taken[variable];
        if !circuit_line::section::is_possible(maximum, before, section, literal, first, second) {
            return refuse(Reason::WrongForm, k + 2);
        }
        numbers[used] = literal as u32;
        numbers[used + 1] = first as u32;
        numbers[used + 2] = second as u32;
        used += count;
        taken[variable] = before | circuit_line::section::defines(section);
        rest = &rest[next..];
        k += 1;
    }
    if rest.len() != 0 {
        return refuse(Reason::WrongForm, k + 2);
    }
    CircuitAnswer {
        outcome: Outcome::Accepted,
        table: CircuitTable { header, numbers },
    }
}

// A circuit file: its table, or the refusal.
pub fn read_circuit(file: &[u8]) -> CircuitAnswer
    ensures answer { result ≡ circuit_answer (parse_contents file.now) }
{
    if 65536 < file.len() {
        return refuse(Reason::TooLong, 0);
    }
    let HeaderRead::Header(header, next) = read_header(file) else {
        return refuse(Reason::WrongForm, 1);
    };
    read_lines(&file[next..], header)
}
