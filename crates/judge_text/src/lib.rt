// The text that program `judge` prints, from the bytes of its two files.
#![tactic(auto)]

ghost use Rattle.tables.specs.Only.{TheOnlyPair};
ghost use Rattle.rule_file.specs.Valid.{InRange as FormulaInRange};
ghost use Rattle.take_file.specs.Valid.{InRange as TraceInRange};
ghost use Rattle.rule_and_take.specs.File.{WasRead};
ghost use Rattle.writing.specs.Answer.{Printed};
ghost use Rattle.judge_text.specs.Answer.{IsMetText, Prints, PrintsRead};

use meeting::Wanted;
use rule_and_take::Pair;
use tables::refusal::Outcome;
use tables::row::Formula;
use tables::trace::Trace;
use writing::answer::Bytes;
use writing::deliver::deliver_refusal;

pub mod verdict;

// Two tables in range.
fn judge_met(formula: Formula, trace: Trace, buf: &mut [u8]) -> Bytes
    requires { FormulaInRange formula × TraceInRange trace }
    ensures prints { Printed (IsMetText formula trace) buf.old buf.new result }
{
    let met = meeting::meet(formula, trace, Wanted::Either);
    let outcome = met.outcome;
    match outcome {
        Outcome::Refused(refusal) => deliver_refusal(refusal, buf),
        Outcome::Accepted => {
            let form = met.form;
            let rows = form.rows;
            let found = judging::decide(form, formula, met.covered);
            let ending = trace.ending;
            verdict::deliver_verdict(formula.signals, rows, trace.cycles, ending, found, buf)
        }
    }
}

// The text for tables that were read from files, written whole or not at all.
pub fn judge_read(pair: Pair, buf: &mut [u8]) -> Bytes
    requires { WasRead pair }
    ensures prints { PrintsRead pair buf.old buf.new result }
{
    let outcome = pair.outcome;
    match outcome {
        Outcome::Refused(refusal) => deliver_refusal(refusal, buf),
        Outcome::Accepted => judge_met(pair.formula, pair.trace, buf),
    }
}

// PRINT-OUT: the text of `judge` for the bytes of a rule file and of a take file, a refusal's lines included; whole or not at all.
pub fn judge(rule: &[u8], take: &[u8], buf: &mut [u8]) -> Bytes
    ensures prints { TheOnlyPair (Prints rule.now take.now buf.old) buf.new result }
{
    let pair = rule_and_take::read_pair(rule, take);
    judge_read(pair, buf)
}
