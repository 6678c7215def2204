// Judging while the take runs (02, request 1): a run begins with a rule, takes one cycle after another, and is called on for the open
// verdict between any two. It is handed over and handed back by value.
#![tactic(auto)]

ghost use Rattle.std.specs.Prelude.{Bool, true, List, [], ◌∷◌, ◌++◌, ◌↔◌, ◌≡◌, ◌≤◌, ◌<◌, length};
ghost use Rattle.tables.specs.declared.row.Formula.{Formula};
ghost use Rattle.text.specs.Digits.{digits_in};
ghost use Rattle.recording.specs.Recording.{Recorded};
ghost use Rattle.rule_file.specs.Rule.{parse_rule};
ghost use Rattle.rule_file.specs.Written.{written_rule};
ghost use Rattle.rule_and_take.specs.File.{OnFile};
ghost use Rattle.take_file.specs.Take.{trace_of};
ghost use Rattle.judging.specs.declared.verdict.Answer.TheVariants.{Refused as AnswerRefused};
ghost use Rattle.run.specs.Calls.{GivesVerdict, TakesCycle};
ghost use Rattle.run.specs.Cycles.{cycle_outcome};
ghost use Rattle.run.specs.Run.{InState, LedTo, run_of};
ghost use Rattle.run.specs.Verdict.{VerdictSoFar, out_of_range};

use judging::verdict::Answer;
use meeting::Wanted;
use tables::refusal::{Outcome, Reason, Refusal, call_refused};
use tables::row::Formula;
use tables::run::Run;
use tables::trace::{Ending, Trace};

// What beginning a run or handing it a cycle gives: how the call went, and the run as it is then.
#[derive(Clone, Copy)]
pub struct RunAnswer {
    pub outcome: Outcome,
    pub run: Run,
}

// What calling for the verdict gives, and the run as it was.
#[derive(Clone, Copy)]
pub struct VerdictAnswer {
    pub answer: Answer,
    pub run: Run,
}

// The run of a rule before its first cycle.
pub fn fresh(formula: Formula) -> Run
    ensures none { result ≡ run_of formula [] }
{
    let words = recording::empty();
    Run {
        formula,
        cycles: 0,
        words,
    }
}

// SERVICE: a run begins with a rule, which it holds as reading its file would leave it. What is refused is handed back in a state that no
// calls lead to.
pub fn begin(formula: Formula) -> RunAnswer
    ensures begun { OnFile 1 (parse_rule (written_rule formula))
        (λ why. (result.outcome ≡ Outcome.Refused why) × (result.run ≡ run_of formula []))
        (λ f. (result.outcome ≡ Outcome.Accepted) × (result.run ≡ run_of f [])) }
{
    let outcome = rule_file::check::check_formula(formula);
    match outcome {
        Outcome::Refused(_) => RunAnswer {
            outcome,
            run: fresh(formula),
        },
        Outcome::Accepted => {
            let read = rule_table::as_read(formula);
            RunAnswer {
                outcome,
                run: fresh(read),
            }
        }
    }
}

// Whether calls lead to a run: its rule is as reading leaves it, and its words are those of so many cycles of so many signals.
fn is_led(run: Run) -> bool
    ensures exactly { (result ≡ true) ↔ LedTo (λ f cs. run ≡ run_of f cs) }
{
    let formula = run.formula;
    if !rule_table::is_read(formula) {
        return false;
    }
    if 256 < run.cycles {
        return false;
    }
    let words = run.words;
    recording::whole::is_recording(words, formula.signals as usize, run.cycles as usize)
}

// What is told of a cycle's digits, with so many signals and so many cycles so far.
fn check_cycle(signals: u8, taken: u16, digits: &[u8]) -> Outcome
    ensures outcome { result ≡ cycle_outcome signals taken digits.now }
{
    if !text::digits::are_digits(digits) {
        return call_refused(Reason::WrongForm);
    }
    if digits.len() != signals as usize {
        return call_refused(Reason::SignalsDiffer);
    }
    if 256 <= taken {
        return call_refused(Reason::TooManyCycles);
    }
    Outcome::Accepted
}

// The run with one cycle more.
fn one_more(run: Run, digits: &[u8]) -> Run
    requires { Recorded run.words run.cycles × (run.cycles < 256) × (length digits.now ≤ 32) }
    ensures more { (f : Formula) (cs : List (List Bool)) → run ≡ run_of f cs
        → result ≡ run_of f (cs ++ (digits_in digits.now ∷ [])) }
{
    let formula = run.formula;
    let mut words = run.words;
    recording::put_cycle(&mut words, digits, run.cycles as usize);
    Run {
        formula,
        cycles: run.cycles + 1,
        words,
    }
}

// SERVICE: a cycle is handed over as its digits.
pub fn take_cycle(run: Run, digits: &[u8]) -> RunAnswer
    ensures answer { TakesCycle run_of run digits.now result.outcome result.run }
{
    if !is_led(run) {
        let outcome = call_refused(Reason::CountOutOfRange);
        return RunAnswer { outcome, run };
    }
    let formula = run.formula;
    let outcome = check_cycle(formula.signals, run.cycles, digits);
    match outcome {
        Outcome::Refused(_) => RunAnswer { outcome, run },
        Outcome::Accepted => {
            let after = one_more(run, digits);
            RunAnswer {
                outcome,
                run: after,
            }
        }
    }
}

fn out_of_range() -> Answer
    ensures answer { result ≡ AnswerRefused out_of_range }
{
    Answer::Refused(Refusal {
        reason: Reason::CountOutOfRange,
        file: 0,
        line: 0,
    })
}

// The open take of the cycles so far.
fn trace_so_far(run: Run) -> Trace
    ensures trace { (f : Formula) (cs : List (List Bool)) → run ≡ run_of f cs
        → result ≡ trace_of f.signals (length cs) Ending.Open cs }
{
    let formula = run.formula;
    let words = run.words;
    let lanes = recording::lanes_from(words);
    Trace {
        signals: formula.signals,
        cycles: run.cycles,
        ending: Ending::Open,
        lanes,
    }
}

// The answer to a call for the verdict.
fn judge_so_far(run: Run) -> Answer
    ensures told { InState (λ f cs. run ≡ run_of f cs) (result ≡ AnswerRefused out_of_range) (λ f cs. VerdictSoFar f cs result) }
{
    if !is_led(run) {
        return out_of_range();
    }
    if run.cycles < 1 {
        return out_of_range();
    }
    let formula = run.formula;
    let trace = trace_so_far(run);
    judging::judge_met(formula, trace, Wanted::Unlooped)
}

// SERVICE: the open verdict on the cycles so far. The run goes on as if nobody had called.
pub fn verdict(run: Run) -> VerdictAnswer
    ensures answer { GivesVerdict run_of run result.answer result.run }
{
    let answer = judge_so_far(run);
    VerdictAnswer { answer, run }
}
