// A formula that is handed over as a table, checked as if written out as its file.
ghost use Rattle.std.specs.Prelude.{◌≡◌, ◌≤◌, true};
ghost use Rattle.text.specs.Body.{EachAt, body_lines};
ghost use Rattle.text.specs.Result.{outcome_of};
ghost use Rattle.text.specs.Written.{written_body};
ghost use Rattle.rule_row.specs.Row.{in_range, row_value};
ghost use Rattle.rule_file.specs.Valid.{InRange};
ghost use Rattle.rule_file.specs.Outcome.{rule_outcome};
ghost use Rattle.rule_file.specs.Written.{rows_of};
ghost use Rattle.rule_row.specs.Written.{written_row};

use tables::kind;
use tables::refusal::{Outcome, Reason, Refusal};
use tables::row::Formula;

fn refuse(reason: Reason, line: usize) -> Outcome
    ensures answer { result ≡ Outcome.Refused (record { reason = reason; file = 1; line = line }) }
{
    Outcome::Refused(Refusal {
        reason,
        file: 1,
        line,
    })
}

// The used rows, from the first on.
fn check_rows(formula: Formula) -> Outcome
    requires { formula.rows ≤ 64 }
    ensures answer { result ≡ outcome_of 1 (body_lines 114 (row_value formula.signals) formula.rows 1 4
        (written_body 114 written_row 1 (rows_of formula))) }
    ensures range { result ≡ Outcome.Accepted → EachAt (λ k x. in_range formula.signals k x ≡ true) 1 (rows_of formula) }
{
    let signals = formula.signals as usize;
    let rows = formula.rows as usize;
    let places = formula.places;
    let mut k = 0;
    while k < rows {
        let place = places[k];
        let row = place.row;
        let first = kind::first_number(row);
        let second = kind::second_number(row);
        if !rule_row::in_range(signals, k + 1, row, first as usize, second as usize) {
            return refuse(Reason::BadReference, k + 4);
        }
        k += 1;
    }
    Outcome::Accepted
}

// A formula in memory: what reading it, written out as its file, would answer; and what an accepted one is known to be.
pub fn check_formula(formula: Formula) -> Outcome
    ensures outcome { result ≡ rule_outcome formula }
    ensures range { result ≡ Outcome.Accepted → InRange formula }
{
    let signals = formula.signals;
    let rows = formula.rows;
    if signals < 1 {
        return refuse(Reason::CountOutOfRange, 2);
    }
    if 32 < signals {
        return refuse(Reason::CountOutOfRange, 2);
    }
    if rows < 1 {
        return refuse(Reason::CountOutOfRange, 3);
    }
    if 64 < rows {
        return refuse(Reason::CountOutOfRange, 3);
    }
    check_rows(formula)
}
