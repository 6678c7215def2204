// Where a rule meets a take: the one place for what is refused of the two together, and for the normal form that every service behind it
// goes on with.
#![tactic(auto)]

ghost use Rattle.std.specs.Prelude.{◌≡◌, eqb};
ghost use Rattle.tables.specs.Choice.{pick};
ghost use Rattle.tables.specs.Refusal.{call_refused, numbered};
ghost use Rattle.rule_file.specs.Valid.{InRange as FormulaInRange};
ghost use Rattle.take_file.specs.Valid.{InRange as TraceInRange};
ghost use Rattle.normal_form.specs.Numbering.{normal_form};
ghost use Rattle.normal_form.specs.declared.sign.Sign.TheVariants.{Plain};
ghost use Rattle.meeting.specs.Meeting.{covered_take, eight_outcome, meeting_outcome, own_outcome};

use normal_form::sign::Sign;
use tables::refusal::{Outcome, Reason, call_refused, first_refusal};
use tables::row::{ConstantKind, Formula, NormalForm, Row, RowPlace};
use tables::trace::{Ending, Trace};

// Which takes a service is for: those of either kind, looped ones alone, open ones alone.
#[derive(Clone, Copy)]
pub enum Wanted {
    Either,
    Looped,
    Unlooped,
}

// The first refusal; or none, the rule's normal form, and the take that its sheets cover. (A refusal leaves an empty form.)
#[derive(Clone, Copy)]
pub struct Meeting {
    pub outcome: Outcome,
    pub form: NormalForm,
    pub covered: Trace,
}

// The tables' own refusals, the rule's first; and what accepted tables are known to be.
pub fn check_own(formula: Formula, trace: Trace) -> Outcome
    ensures outcome { result ≡ own_outcome formula trace }
    ensures range { result ≡ Outcome.Accepted → FormulaInRange formula × TraceInRange trace }
{
    let rule = rule_file::check::check_formula(formula);
    let take = take_file::check::check_trace(trace);
    first_refusal(rule, take)
}

fn check_signals(rule: u8, take: u8) -> Outcome
    ensures outcome { result ≡ pick (eqb rule take) Outcome.Accepted (call_refused (numbered 7)) }
{
    if rule != take {
        return call_refused(Reason::SignalsDiffer);
    }
    Outcome::Accepted
}

fn check_ending(wanted: Wanted, ending: Ending) -> Outcome
    ensures outcome { result ≡ eight_outcome wanted ending }
{
    match wanted {
        Wanted::Either => Outcome::Accepted,
        Wanted::Looped => match ending {
            Ending::Open => call_refused(Reason::WrongEnding),
            Ending::Loop(_) => Outcome::Accepted,
        },
        Wanted::Unlooped => match ending {
            Ending::Open => Outcome::Accepted,
            Ending::Loop(_) => call_refused(Reason::WrongEnding),
        },
    }
}

// What is refused of the two together.
fn check_met(formula: Formula, trace: Trace, wanted: Wanted) -> Outcome
    ensures outcome { result ≡ meeting_outcome wanted formula trace }
{
    let ending = trace.ending;
    let seven = check_signals(formula.signals, trace.signals);
    let eight = check_ending(wanted, ending);
    first_refusal(seven, eight)
}

fn no_form() -> NormalForm {
    let unused = Row::Constant(ConstantKind::True);
    let places = [RowPlace { row: unused }; 128];
    NormalForm {
        signals: 0,
        rows: 0,
        places,
    }
}

// Tables that are known to be in range, as those that were read are: nothing of their own is looked at again.
pub fn meet(formula: Formula, trace: Trace, wanted: Wanted) -> Meeting
    requires { FormulaInRange formula }
    ensures outcome { result.outcome ≡ meeting_outcome wanted formula trace }
    ensures form { result.outcome ≡ Outcome.Accepted → result.form ≡ normal_form formula Plain }
    ensures covered { result.outcome ≡ Outcome.Accepted → result.covered ≡ covered_take formula trace }
{
    let outcome = check_met(formula, trace, wanted);
    match outcome {
        Outcome::Refused(refusal) => {
            let form = no_form();
            Meeting {
                outcome: Outcome::Refused(refusal),
                form,
                covered: trace,
            }
        }
        Outcome::Accepted => {
            let form = normal_form::normal_form(formula, Sign::Plain);
            // No kind looks back yet, so no round has to be written out.
            Meeting {
                outcome: Outcome::Accepted,
                form,
                covered: trace,
            }
        }
    }
}
