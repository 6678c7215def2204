// Sheet files.
ghost use Rattle.std.specs.Prelude.{◌≡◌, ◌≤◌};
ghost use Rattle.text.specs.Body.{body_lines};
ghost use Rattle.text.specs.Digits.{digits_form};
ghost use Rattle.text.specs.Result.{map_result};
ghost use Rattle.text.specs.Result.Result.{refused};
ghost use Rattle.sheet_file.specs.Sheet.{activation_of, parse_sheet, sheet_answer};

use tables::refusal::{Outcome, Reason, Refusal};
use tables::trace::{Activation, Lane};
use text::digits::Digits;
use text::line::Counted;

// What reading a sheet file gives. (The table holds an array, so it stands beside the outcome; a refusal leaves it empty.)
#[derive(Clone, Copy)]
pub struct SheetAnswer {
    pub outcome: Outcome,
    pub activation: Activation,
}

// A refusal of a sheet file.
fn refuse(reason: Reason, line: usize) -> SheetAnswer
    ensures answer { result ≡ sheet_answer (refused reason line) }
{
    let lanes = [Lane { words: [0; 4] }; 128];
    SheetAnswer {
        outcome: Outcome::Refused(Refusal {
            reason,
            file: 3,
            line,
        }),
        activation: Activation {
            rows: 0,
            cycles: 0,
            lanes,
        },
    }
}

// The rows, one line each, and nothing behind them.
fn read_rows(body: &[u8], rows: usize, cycles: usize) -> SheetAnswer
    requires { (rows ≤ 128) × (cycles ≤ 256) }
    ensures answer { result ≡ sheet_answer (map_result (activation_of rows cycles)
        (body_lines 122 (λ row. digits_form cycles) rows 1 4 body.now)) }
{
    let mut rest = body;
    let mut lanes = [Lane { words: [0; 4] }; 128];
    let mut k = 0;
    while k < rows {
        let Digits::At(from, end) = text::digits::digits_line(rest, b'z', k + 1, cycles) else {
            return refuse(Reason::WrongForm, k + 4);
        };
        lanes[k] = crate::row::digits_to_lane(&rest[from..end]);
        rest = &rest[end + 1..];
        k += 1;
    }
    if rest.len() != 0 {
        return refuse(Reason::WrongForm, k + 4);
    }
    SheetAnswer {
        outcome: Outcome::Accepted,
        activation: Activation {
            rows: rows as u8,
            cycles: cycles as u16,
            lanes,
        },
    }
}

// A sheet file: its activation table, or the refusal.
pub fn read_sheet(file: &[u8]) -> SheetAnswer
    ensures answer { result ≡ sheet_answer (parse_sheet file.now) }
{
    if 65536 < file.len() {
        return refuse(Reason::TooLong, 0);
    }
    let first = text::line::count_line(file, b"format", 1, 1, Reason::WrongFormat);
    let Counted::Count(_, a) = first else {
        return refuse(text::line::count_reason(first), 1);
    };
    let after_format = &file[a..];
    let second = text::line::count_line(after_format, b"rows", 1, 128, Reason::CountOutOfRange);
    let Counted::Count(rows, b) = second else {
        return refuse(text::line::count_reason(second), 2);
    };
    let after_rows = &after_format[b..];
    let third = text::line::count_line(after_rows, b"cycles", 1, 256, Reason::CountOutOfRange);
    let Counted::Count(cycles, c) = third else {
        return refuse(text::line::count_reason(third), 3);
    };
    read_rows(&after_rows[c..], rows, cycles)
}
