// The sheet maker (01, "Monitors"; demand 3): the activator sheet of a formula and a trace, or `none`.
#![tactic(auto)]

ghost use Rattle.std.specs.Prelude.{◌≡◌, ◌≤◌};
ghost use Rattle.tables.specs.Only.{TheOnlyPair};
ghost use Rattle.rule_file.specs.Valid.{InRange as FormulaInRange};
ghost use Rattle.take_file.specs.Valid.{InRange as TraceInRange};
ghost use Rattle.sheet_file.specs.Written.{written_sheet};
ghost use Rattle.meaning.specs.Covers.{CoversForm};
ghost use Rattle.normal_form.specs.Form.{InNormalForm};
ghost use Rattle.meeting.specs.Meeting.{meeting_outcome, pair_outcome};
ghost use Rattle.meeting.specs.declared.Wanted.TheVariants.{Either};
ghost use Rattle.monitors.specs.Sheet.{activator_at};
ghost use Rattle.writing.specs.Answer.{Delivers};
ghost use Rattle.sheet_maker.specs.Made.{IsMade};
ghost use Rattle.sheet_maker.specs.Answer.{Makes, MakesOn, answer_of};

use meeting::Wanted;
use tables::refusal::{Outcome, Refusal};
use tables::row::{Formula, NormalForm};
use tables::trace::{Activation, Trace};
use writing::answer::Bytes;

pub mod sheet;

// How many bytes were written; `none` where there is no sheet; or the refusal.
#[derive(Clone, Copy)]
pub enum MakerAnswer {
    Written(usize),
    None,
    Refused(Refusal),
}

fn maker_answer(bytes: Bytes) -> MakerAnswer
    ensures answer { result ≡ answer_of bytes }
{
    match bytes {
        Bytes::Count(n) => MakerAnswer::Written(n),
        Bytes::Refused(refusal) => MakerAnswer::Refused(refusal),
    }
}

// The rows' truth, as a sheet.
pub fn truth_sheet(form: NormalForm, trace: Trace) -> Activation
    requires { InNormalForm form × TraceInRange trace × CoversForm form trace }
    ensures made { IsMade form trace result }
{
    let truth = truth::fill::fill(form, trace);
    let lanes = truth.lanes;
    Activation {
        rows: form.rows,
        cycles: trace.cycles,
        lanes,
    }
}

// Whether a sheet sets its root in the first cycle.
pub fn sets_root(sheet: Activation) -> bool
    requires { (1 ≤ sheet.rows) × (sheet.rows ≤ 128) }
    ensures root { result ≡ activator_at sheet 0 sheet.rows }
{
    let lanes = sheet.lanes;
    let root = sheet.rows as usize - 1;
    lanes::lane::bit(lanes[root], 0)
}

// The file of a sheet, in place.
pub fn write_sheet(sheet: Activation, buf: &mut [u8]) -> Bytes
    requires { (1 ≤ sheet.rows) × (sheet.rows ≤ 128) × (sheet.cycles ≤ 256) }
    ensures delivers { Delivers (written_sheet sheet) buf.old buf.new result }
{
    let n = sheet::sheet_length(sheet.rows, sheet.cycles);
    if buf.len() < n {
        return writing::deliver::too_short();
    }
    let end = sheet::put_sheet(buf, sheet);
    Bytes::Count(end)
}

// The answer to tables that are known to be in range, as those that were read are.
pub fn make_met(formula: Formula, trace: Trace, buf: &mut [u8]) -> MakerAnswer
    requires { FormulaInRange formula × TraceInRange trace }
    ensures makes { TheOnlyPair (MakesOn (meeting_outcome Either formula trace) formula trace buf.old)
        buf.new result }
{
    let met = meeting::meet(formula, trace, Wanted::Either);
    let outcome = met.outcome;
    match outcome {
        Outcome::Refused(refusal) => MakerAnswer::Refused(refusal),
        Outcome::Accepted => {
            let sheet = truth_sheet(met.form, met.covered);
            if sets_root(sheet) {
                maker_answer(write_sheet(sheet, buf))
            } else {
                MakerAnswer::None
            }
        }
    }
}

// SERVICE: the sheet file of the formula's normal form over the trace, if the root is true at the first cycle. Tables that are not
// refused are in range, as the theorems about sheets ask.
pub fn make_sheet(formula: Formula, trace: Trace, buf: &mut [u8]) -> MakerAnswer
    ensures makes { TheOnlyPair (Makes formula trace buf.old) buf.new result }
    ensures range { pair_outcome Either formula trace ≡ Outcome.Accepted → FormulaInRange formula × TraceInRange trace }
{
    let own = meeting::check_own(formula, trace);
    match own {
        Outcome::Refused(refusal) => MakerAnswer::Refused(refusal),
        Outcome::Accepted => make_met(formula, trace, buf),
    }
}
