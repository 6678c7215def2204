// Rule files.
ghost use Rattle.std.specs.Prelude.{◌≡◌, ◌≤◌};
ghost use Rattle.text.specs.Body.{body_lines};
ghost use Rattle.text.specs.Result.{map_result};
ghost use Rattle.text.specs.Result.Result.{refused};
ghost use Rattle.rule_row.specs.Row.{row_value};
ghost use Rattle.rule_file.specs.Rule.{formula_of, parse_rule, rule_answer};

use rule_row::RowLine;
use tables::refusal::{Outcome, Reason, Refusal};
use tables::row::{ConstantKind, Formula, Row, RowPlace};
use text::line::Counted;

// What reading a rule file gives. (The formula holds an array, so it stands beside the outcome; a refusal leaves it empty.)
#[derive(Clone, Copy)]
pub struct RuleAnswer {
    pub outcome: Outcome,
    pub formula: Formula,
}

// A refusal of a rule file.
fn refuse(reason: Reason, line: usize) -> RuleAnswer
    ensures answer { result ≡ rule_answer (refused reason line) }
{
    let unused = Row::Constant(ConstantKind::True);
    let places = [RowPlace { row: unused }; 64];
    RuleAnswer {
        outcome: Outcome::Refused(Refusal {
            reason,
            file: 1,
            line,
        }),
        formula: Formula {
            signals: 0,
            rows: 0,
            places,
        },
    }
}

// The rows, one line each, and nothing behind them.
fn read_rows(body: &[u8], signals: usize, rows: usize) -> RuleAnswer
    requires { (signals ≤ 32) × (rows ≤ 64) }
    ensures answer { result ≡ rule_answer (map_result (formula_of signals rows)
        (body_lines 114 (row_value signals) rows 1 4 body.now)) }
{
    let mut rest = body;
    let unused = Row::Constant(ConstantKind::True);
    let mut places = [RowPlace { row: unused }; 64];
    let mut k = 0;
    while k < rows {
        let line = rule_row::row_line(rest, k + 1, signals);
        let RowLine::Row(row, next) = line else {
            return refuse(rule_row::row_reason(line), k + 4);
        };
        places[k] = RowPlace { row };
        rest = &rest[next..];
        k += 1;
    }
    if rest.len() != 0 {
        return refuse(Reason::WrongForm, k + 4);
    }
    RuleAnswer {
        outcome: Outcome::Accepted,
        formula: Formula {
            signals: signals as u8,
            rows: rows as u8,
            places,
        },
    }
}

// A rule file: its formula, or the refusal.
pub fn read_rule(file: &[u8]) -> RuleAnswer
    ensures answer { result ≡ rule_answer (parse_rule file.now) }
{
    if 65536 < file.len() {
        return refuse(Reason::TooLong, 0);
    }
    let first = text::line::count_line(file, b"format", 1, 1, Reason::WrongFormat);
    let Counted::Count(_, a) = first else {
        return refuse(text::line::count_reason(first), 1);
    };
    let after_format = &file[a..];
    let second = text::line::count_line(after_format, b"signals", 1, 32, Reason::CountOutOfRange);
    let Counted::Count(signals, b) = second else {
        return refuse(text::line::count_reason(second), 2);
    };
    let after_signals = &after_format[b..];
    let third = text::line::count_line(after_signals, b"rows", 1, 64, Reason::CountOutOfRange);
    let Counted::Count(rows, c) = third else {
        return refuse(text::line::count_reason(third), 3);
    };
    read_rows(&after_signals[c..], signals, rows)
}
