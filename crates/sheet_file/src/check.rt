// An activation table that is handed over, checked as if written out as its file.
ghost use Rattle.std.specs.Prelude.{◌≡◌};
ghost use Rattle.text.specs.Result.{outcome_of};
ghost use Rattle.sheet_file.specs.Sheet.{parse_sheet};
ghost use Rattle.sheet_file.specs.Valid.{InRange};
ghost use Rattle.sheet_file.specs.Written.{written_sheet};

use tables::refusal::{Outcome, Reason, Refusal};
use tables::trace::Activation;

fn refuse(reason: Reason, line: usize) -> Outcome
    ensures answer { result ≡ Outcome.Refused (record { reason = reason; file = 3; line = line }) }
{
    Outcome::Refused(Refusal {
        reason,
        file: 3,
        line,
    })
}

// An activation table in memory: what reading it, written out as its file, would answer; and what an accepted one is known to be.
pub fn check_activation(activation: Activation) -> Outcome
    ensures answer { result ≡ outcome_of 3 (parse_sheet (written_sheet activation)) }
    ensures range { result ≡ Outcome.Accepted → InRange activation }
{
    let rows = activation.rows;
    let cycles = activation.cycles;
    if rows < 1 {
        return refuse(Reason::CountOutOfRange, 2);
    }
    if 128 < rows {
        return refuse(Reason::CountOutOfRange, 2);
    }
    if cycles < 1 {
        return refuse(Reason::CountOutOfRange, 3);
    }
    if 256 < cycles {
        return refuse(Reason::CountOutOfRange, 3);
    }
    Outcome::Accepted
}
