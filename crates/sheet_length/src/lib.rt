// How long the sheet's file is (02, request 3): exactly, without writing it, and 0 where the sheet maker answers `none`.
#![tactic(auto)]

ghost use Rattle.tables.specs.Only.{TheOnly};
ghost use Rattle.rule_file.specs.Valid.{InRange as FormulaInRange};
ghost use Rattle.take_file.specs.Valid.{InRange as TraceInRange};
ghost use Rattle.meeting.specs.Meeting.{meeting_outcome};
ghost use Rattle.meeting.specs.declared.Wanted.TheVariants.{Either};
ghost use Rattle.sheet_length.specs.Answer.{Measures, MeasuresOn};

use meeting::Wanted;
use tables::refusal::Outcome;
use tables::row::Formula;
use tables::trace::Trace;
use writing::answer::Bytes;

// The length for tables that are known to be in range, as those that were read are. The rows' truth decides whether there is a sheet;
// its size alone gives the length.
pub fn measure_met(formula: Formula, trace: Trace) -> Bytes
    requires { FormulaInRange formula × TraceInRange trace }
    ensures measures { TheOnly (MeasuresOn (meeting_outcome Either formula trace) formula trace) result }
{
    let met = meeting::meet(formula, trace, Wanted::Either);
    let outcome = met.outcome;
    match outcome {
        Outcome::Refused(refusal) => Bytes::Refused(refusal),
        Outcome::Accepted => {
            let sheet = sheet_maker::truth_sheet(met.form, met.covered);
            if sheet_maker::sets_root(sheet) {
                Bytes::Count(sheet_maker::sheet::sheet_length(sheet.rows, sheet.cycles))
            } else {
                Bytes::Count(0)
            }
        }
    }
}

// SERVICE: how many bytes the sheet file of the formula's normal form over the trace has; 0 where there is none.
pub fn measure(formula: Formula, trace: Trace) -> Bytes
    ensures measures { TheOnly (Measures formula trace) result }
{
    let own = meeting::check_own(formula, trace);
    match own {
        Outcome::Refused(refusal) => Bytes::Refused(refusal),
        Outcome::Accepted => measure_met(formula, trace),
    }
}
