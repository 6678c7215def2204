// A rule file and a take file, as most services get them: read one after the other, with the first refusal.
#![tactic(auto)]

ghost use Rattle.std.specs.Prelude.{◌≡◌};
ghost use Rattle.rule_file.specs.Rule.{parse_rule};
ghost use Rattle.take_file.specs.Take.{parse_take};
ghost use Rattle.rule_and_take.specs.File.{joined, pair_read};

use rule_file::rule::RuleAnswer;
use tables::refusal::Outcome;
use tables::row::Formula;
use tables::trace::Trace;
use take_file::take::TakeAnswer;

// The first refusal, or both tables; a file that is refused leaves the empty one.
#[derive(Clone, Copy)]
pub struct Pair {
    pub outcome: Outcome,
    pub formula: Formula,
    pub trace: Trace,
}

// What the readers answered, as a pair: for files that were read one after the other through one buffer.
pub fn join(first: RuleAnswer, second: TakeAnswer) -> Pair
    ensures answer { result ≡ joined first second }
{
    let one = first.outcome;
    let two = second.outcome;
    let outcome = tables::refusal::first_refusal(one, two);
    let formula = first.formula;
    let trace = second.trace;
    Pair {
        outcome,
        formula,
        trace,
    }
}

pub fn read_pair(rule: &[u8], take: &[u8]) -> Pair
    ensures answer { result ≡ pair_read (parse_rule rule.now) (parse_take take.now) }
{
    let first = rule_file::rule::read_rule(rule);
    let second = take_file::take::read_take(take);
    join(first, second)
}
