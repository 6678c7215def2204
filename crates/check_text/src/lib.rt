// The text that program `check_sheet` prints, from the bytes of its three files.
#![tactic(auto)]

ghost use Rattle.std.specs.Prelude.{List, ℕ};
ghost use Rattle.tables.specs.Only.{TheOnlyPair};
ghost use Rattle.rule_file.specs.Valid.{InRange as FormulaInRange};
ghost use Rattle.take_file.specs.Valid.{InRange as TraceInRange};
ghost use Rattle.rule_and_take.specs.File.{WasRead};
ghost use Rattle.sheet_file.specs.Sheet.{parse_sheet};
ghost use Rattle.writing.specs.Answer.{Printed};
ghost use Rattle.check_text.specs.Answer.{IsMetText, IsSheetText, OfSheet, Prints, PrintsRead, SheetWasRead};

use checking::finding::CheckAnswer;
use rule_and_take::Pair;
use sheet_file::sheet::SheetAnswer;
use tables::refusal::Outcome;
use tables::row::Formula;
use tables::trace::{Activation, Trace};
use writing::answer::Bytes;
use writing::deliver::deliver_refusal;

pub mod finding;

// Three tables, the rule's and the take's in range.
fn check_met(formula: Formula, trace: Trace, activation: Activation, buf: &mut [u8]) -> Bytes
    requires { FormulaInRange formula × TraceInRange trace }
    ensures prints { Printed (IsMetText formula trace activation) buf.old buf.new result }
{
    let answer = checking::check_met(formula, trace, activation);
    match answer {
        CheckAnswer::Refused(refusal) => deliver_refusal(refusal, buf),
        CheckAnswer::Checked(found) => finding::deliver_finding(found, buf),
    }
}

fn check_third(formula: Formula, trace: Trace, third: SheetAnswer, buf: &mut [u8]) -> Bytes
    requires { FormulaInRange formula × TraceInRange trace × SheetWasRead third }
    ensures prints { OfSheet third (λ sheet. Printed (IsSheetText formula trace (parse_sheet sheet))
        buf.old buf.new result) }
{
    let outcome = third.outcome;
    match outcome {
        Outcome::Refused(refusal) => deliver_refusal(refusal, buf),
        Outcome::Accepted => check_met(formula, trace, third.activation, buf),
    }
}

// The text for tables that were read from files, written whole or not at all.
pub fn check_read(pair: Pair, third: SheetAnswer, buf: &mut [u8]) -> Bytes
    requires { WasRead pair × SheetWasRead third }
    ensures prints { PrintsRead pair third buf.old buf.new result }
{
    let outcome = pair.outcome;
    match outcome {
        Outcome::Refused(refusal) => deliver_refusal(refusal, buf),
        Outcome::Accepted => check_third(pair.formula, pair.trace, third, buf),
    }
}

// PRINT-OUT: the text of `check_sheet` for the bytes of the three files, a refusal's lines included; whole or not at all.
pub fn check(rule: &[u8], take: &[u8], sheet: &[u8], buf: &mut [u8]) -> Bytes
    ensures prints { TheOnlyPair (Prints rule.now take.now sheet.now buf.old)
        buf.new result }
{
    let pair = rule_and_take::read_pair(rule, take);
    let third = sheet_file::sheet::read_sheet(sheet);
    check_read(pair, third, buf)
}
