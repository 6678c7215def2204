// Answers as one number, for callers in C and Rust.
#![tactic(auto)]

ghost use Rattle.std.specs.Prelude.{◌≡◌};
ghost use Rattle.answer_code.specs.Code.{bytes_code, check_code, finding_code, judge_code, maker_code, outcome_code, refusal_code, sign_of, verdict_code};

use checking::finding::{CheckAnswer, Finding};
use judging::verdict::{Answer, Verdict};
use normal_form::sign::Sign;
use sheet_maker::MakerAnswer;
use tables::refusal::{Outcome, Refusal};
use writing::answer::Bytes;

// Which normal form is asked for.
pub fn sign_named(negated: u8) -> Sign
    ensures answer { result ≡ sign_of negated }
{
    if negated == 0 {
        return Sign::Plain;
    }
    Sign::Negated
}

pub fn refusal_code(refusal: Refusal) -> u64
    ensures answer { result ≡ refusal_code refusal }
{
    let reason = refusal.reason;
    let number = tables::refusal::reason_number(reason);
    let line = refusal.line as u64 % 4294967296;
    9223372036854775808 + (number as u64) + 256 * (refusal.file as u64) + 65536 * line
}

pub fn outcome_code(outcome: Outcome) -> u64
    ensures answer { result ≡ outcome_code outcome }
{
    match outcome {
        Outcome::Accepted => 0,
        Outcome::Refused(refusal) => refusal_code(refusal),
    }
}

pub fn bytes_code(answer: Bytes) -> u64
    ensures answer { result ≡ bytes_code answer }
{
    match answer {
        Bytes::Count(n) => n as u64,
        Bytes::Refused(refusal) => refusal_code(refusal),
    }
}

fn verdict_code(verdict: Verdict) -> u64
    ensures answer { result ≡ verdict_code verdict }
{
    match verdict {
        Verdict::Holds => 1,
        Verdict::Breaks => 2,
        Verdict::Kept => 3,
        Verdict::Broken => 4,
        Verdict::Open => 5,
    }
}

pub fn judge_code(answer: Answer) -> u64
    ensures answer { result ≡ judge_code answer }
{
    match answer {
        Answer::Judged(verdict) => verdict_code(verdict),
        Answer::Refused(refusal) => refusal_code(refusal),
    }
}

pub fn maker_code(answer: MakerAnswer) -> u64
    ensures answer { result ≡ maker_code answer }
{
    match answer {
        MakerAnswer::Written(n) => n as u64,
        MakerAnswer::None => 0,
        MakerAnswer::Refused(refusal) => refusal_code(refusal),
    }
}

fn finding_code(finding: Finding) -> u64
    ensures answer { result ≡ finding_code finding }
{
    match finding {
        Finding::Root => 1,
        Finding::Failed(row, cycle) => 2 + 256 * (row as u64) + 65536 * (cycle as u64),
        Finding::Starved(row) => 3 + 256 * (row as u64),
        Finding::Pending(row) => 4 + 256 * (row as u64),
        Finding::Passes => 5,
    }
}

pub fn check_code(answer: CheckAnswer) -> u64
    ensures answer { result ≡ check_code answer }
{
    match answer {
        CheckAnswer::Checked(finding) => finding_code(finding),
        CheckAnswer::Refused(refusal) => refusal_code(refusal),
    }
}
