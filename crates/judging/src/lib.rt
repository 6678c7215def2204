// Judging (01, "Meaning"; demand 2): the verdict on a formula and a trace.
#![tactic(auto)]

ghost use Rattle.std.specs.Prelude.{◌≡◌, ◌↔◌, true};
ghost use Rattle.tables.specs.Only.{TheOnly};
ghost use Rattle.rule_file.specs.Valid.{InRange as FormulaInRange};
ghost use Rattle.take_file.specs.Valid.{InRange as TraceInRange};
ghost use Rattle.normal_form.specs.Form.{InNormalForm};
ghost use Rattle.normal_form.specs.Numbering.{normal_form};
ghost use Rattle.normal_form.specs.declared.sign.Sign.TheVariants.{Plain};
ghost use Rattle.meaning.specs.Covers.{CoversForm};
ghost use Rattle.lanes.specs.Truth.{TrueAt};
ghost use Rattle.judging.specs.Verdict.{VerdictOf};
ghost use Rattle.meeting.specs.Meeting.{meeting_outcome, pair_outcome};
ghost use Rattle.meeting.specs.declared.Wanted.TheVariants.{Either, Looped, Unlooped};
ghost use Rattle.judging.specs.Answer.{Answers};

use crate::verdict::{Answer, Verdict};
use meeting::Wanted;
use normal_form::sign::Sign;
use tables::refusal::Outcome;
use tables::row::{Formula, NormalForm};
use tables::trace::{Ending, Trace};

pub mod verdict;

// Whether the root is true at the first cycle.
fn root_true(form: NormalForm, trace: Trace) -> bool
    requires { InNormalForm form × TraceInRange trace × CoversForm form trace }
    ensures root { TrueAt form trace form.rows 0 ↔ (result ≡ true) }
{
    let truth = truth::fill::fill(form, trace);
    let lanes = truth.lanes;
    let root = form.rows as usize - 1;
    lanes::lane::bit(lanes[root], 0)
}

// The verdict on tables that are known to be in range, from the formula's normal form. An open take is broken where the negated formula is
// strongly true: that the formula is not is no more than open.
pub fn decide(form: NormalForm, formula: Formula, trace: Trace) -> Verdict
    requires { (form ≡ normal_form formula Plain) × FormulaInRange formula × TraceInRange trace × CoversForm form trace }
    ensures verdict { VerdictOf formula trace result }
{
    let yes = root_true(form, trace);
    let ending = trace.ending;
    match ending {
        Ending::Loop(_) => { if yes { Verdict::Holds } else { Verdict::Breaks } }
        Ending::Open => {
            if yes {
                return Verdict::Kept;
            }
            let negated = normal_form::normal_form(formula, Sign::Negated);
            if root_true(negated, trace) {
                Verdict::Broken
            } else {
                Verdict::Open
            }
        }
    }
}

// The answer to tables that are known to be in range, as those that were read are.
pub fn judge_met(formula: Formula, trace: Trace, wanted: Wanted) -> Answer
    requires { FormulaInRange formula × TraceInRange trace }
    ensures answer { TheOnly (Answers (meeting_outcome wanted formula trace) formula trace) result }
{
    let met = meeting::meet(formula, trace, wanted);
    let outcome = met.outcome;
    match outcome {
        Outcome::Refused(refusal) => Answer::Refused(refusal),
        Outcome::Accepted => {
            let verdict = decide(met.form, formula, met.covered);
            Answer::Judged(verdict)
        }
    }
}

// The answer to any tables.
fn judge_tables(formula: Formula, trace: Trace, wanted: Wanted) -> Answer
    ensures answer { TheOnly (Answers (pair_outcome wanted formula trace) formula trace) result }
{
    let own = meeting::check_own(formula, trace);
    match own {
        Outcome::Refused(refusal) => Answer::Refused(refusal),
        Outcome::Accepted => judge_met(formula, trace, wanted),
    }
}

// SERVICE: the verdict on a take of either kind.
pub fn judge(formula: Formula, trace: Trace) -> Answer
    ensures answer { TheOnly (Answers (pair_outcome Either formula trace) formula trace) result }
{
    judge_tables(formula, trace, Wanted::Either)
}

// SERVICE: the verdict on a looped take, `holds` or `breaks`.
pub fn judge_looped(formula: Formula, trace: Trace) -> Answer
    ensures answer { TheOnly (Answers (pair_outcome Looped formula trace) formula trace) result }
{
    judge_tables(formula, trace, Wanted::Looped)
}

// SERVICE: the verdict on an open take, `kept`, `broken` or `open`.
pub fn judge_open(formula: Formula, trace: Trace) -> Answer
    ensures answer { TheOnly (Answers (pair_outcome Unlooped formula trace) formula trace) result }
{
    judge_tables(formula, trace, Wanted::Unlooped)
}
