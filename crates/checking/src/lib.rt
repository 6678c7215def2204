// Checking a sheet (01, "Monitors"; demand 3): its monitors go along the take.
#![tactic(auto)]

ghost use Rattle.std.specs.Prelude.{◌≡◌};
ghost use Rattle.tables.specs.Only.{TheOnly};
ghost use Rattle.rule_file.specs.Valid.{InRange as FormulaInRange};
ghost use Rattle.take_file.specs.Valid.{InRange as TraceInRange};
ghost use Rattle.checking.specs.Answer.{CheckAnswers, check_outcome, met_outcome, sizes_outcome, tables_outcome};

use crate::finding::CheckAnswer;
use meeting::Wanted;
use tables::refusal::{Outcome, Reason, call_refused, first_refusal};
use tables::row::{Formula, NormalForm};
use tables::trace::{Activation, Trace};

pub mod find;
pub mod finding;
pub mod survey;

// The formula's own refusals, the trace's, the sheet's.
fn check_tables(formula: Formula, trace: Trace, sheet: Activation) -> Outcome
    ensures outcome { result ≡ tables_outcome formula trace sheet }
    ensures range { result ≡ Outcome.Accepted → FormulaInRange formula × TraceInRange trace }
{
    let own = meeting::check_own(formula, trace);
    let third = sheet_file::check::check_activation(sheet);
    first_refusal(own, third)
}

fn check_sizes(form: NormalForm, trace: Trace, sheet: Activation) -> Outcome
    ensures outcome { result ≡ sizes_outcome form trace sheet }
{
    if (sheet.rows == form.rows) & (sheet.cycles == trace.cycles) {
        return Outcome::Accepted;
    }
    call_refused(Reason::SizeDiffers)
}

// The answer to tables that are known to be in range, as those that were read are.
pub fn check_met(formula: Formula, trace: Trace, sheet: Activation) -> CheckAnswer
    requires { FormulaInRange formula × TraceInRange trace }
    ensures answer { TheOnly (CheckAnswers (met_outcome formula trace sheet) formula trace sheet) result }
{
    let met = meeting::meet(formula, trace, Wanted::Either);
    let together = met.outcome;
    let form = met.form;
    let sizes = check_sizes(form, met.covered, sheet);
    let outcome = first_refusal(together, sizes);
    match outcome {
        Outcome::Refused(refusal) => CheckAnswer::Refused(refusal),
        Outcome::Accepted => {
            let found = find::find(form, met.covered, sheet);
            CheckAnswer::Checked(found)
        }
    }
}

// SERVICE: what a check of the sheet for the rule and the take finds.
pub fn check_sheet(formula: Formula, trace: Trace, sheet: Activation) -> CheckAnswer
    ensures answer { TheOnly (CheckAnswers (check_outcome formula trace sheet) formula trace sheet) result }
{
    let outcome = check_tables(formula, trace, sheet);
    match outcome {
        Outcome::Refused(refusal) => CheckAnswer::Refused(refusal),
        Outcome::Accepted => check_met(formula, trace, sheet),
    }
}
