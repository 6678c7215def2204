// Runs for callers that keep them as bytes (02, request 1): the services of `run` on a state that is lent. Other bytes, or more or fewer,
// are a state that no calls lead to.
#![tactic(auto)]

ghost use Rattle.std.specs.Prelude.{[], ◌≡◌};
ghost use Rattle.rule_file.specs.Rule.{parse_rule};
ghost use Rattle.rule_and_take.specs.File.{OnFile};
ghost use Rattle.writing.specs.Answer.{Delivers};
ghost use Rattle.run.specs.Calls.{GivesVerdict, TakesCycle};
ghost use Rattle.run_state.specs.State.{state_of};

use judging::verdict::Answer;
use tables::refusal::{Outcome, Reason, Refusal, call_refused};
use writing::answer::Bytes;

// SERVICE: a run begins with a rule file; its state goes into the lent bytes.
pub fn begin(rule: &[u8], state: &mut [u8]) -> Bytes
    ensures begun { OnFile 1 (parse_rule rule.now)
        (λ why. (result ≡ Bytes.Refused why) × (state.new ≡ state.old))
        (λ f. Delivers (state_of f []) state.old state.new result) }
{
    let read = rule_file::rule::read_rule(rule);
    let outcome = read.outcome;
    match outcome {
        Outcome::Refused(refusal) => Bytes::Refused(refusal),
        Outcome::Accepted => {
            let formula = read.formula;
            let bytes = run_bytes::encode(run::fresh(formula));
            writing::deliver::deliver(&bytes, state)
        }
    }
}

// SERVICE: one cycle more, as its digits.
pub fn take_cycle(state: &mut [u8], digits: &[u8]) -> Outcome
    ensures answer { TakesCycle state_of state.old digits.now result state.new }
{
    let held = run_bytes::read(state);
    if !held.whole {
        return call_refused(Reason::CountOutOfRange);
    }
    let before = held.run;
    let told = run::take_cycle(before, digits);
    let outcome = told.outcome;
    match outcome {
        Outcome::Refused(refusal) => Outcome::Refused(refusal),
        Outcome::Accepted => {
            let after = told.run;
            let bytes = run_bytes::encode(after);
            writing::put::put(state, 0, &bytes);
            Outcome::Accepted
        }
    }
}

// SERVICE: the open verdict on the cycles so far. The state is only looked at.
pub fn verdict(state: &[u8]) -> Answer
    ensures answer { GivesVerdict state_of state.now result state.now }
{
    let held = run_bytes::read(state);
    if !held.whole {
        return Answer::Refused(Refusal {
            reason: Reason::CountOutOfRange,
            file: 0,
            line: 0,
        });
    }
    let told = run::verdict(held.run);
    told.answer
}
