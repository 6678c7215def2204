// The normal form as a service: its rule file in a lent buffer, and a bound on that file's length.
#![tactic(auto)]

ghost use Rattle.std.specs.Prelude.{◌≡◌};
ghost use Rattle.rule_file.specs.Valid.{InRange};
ghost use Rattle.writing.specs.Answer.{Delivers};
ghost use Rattle.normal_file.specs.Answer.{bound_answer, bound_of, normal_answer, normal_left, output};

use normal_form::sign::Sign;
use tables::refusal::Outcome;
use tables::row::Formula;
use writing::answer::Bytes;

// The file of the normal form of a formula that is known to be in range, as one that was read is. It is made in an array of its own first,
// since it is not measured before it is written.
pub fn write_form(formula: Formula, sign: Sign, buf: &mut [u8]) -> Bytes
    requires { InRange formula }
    ensures delivers { Delivers (output formula sign) buf.old buf.new result }
{
    let form = normal_form::normal_form(formula, sign);
    let mut space = [0u8; 2846];
    let n = row_writer::normal::put_normal(&mut space, form);
    writing::deliver::deliver(&space[..n], buf)
}

// SERVICE: the file of the normal form of the formula (plain) or of its negation (negated), written whole or not at all.
pub fn write_normal(formula: Formula, sign: Sign, buf: &mut [u8]) -> Bytes
    ensures answer { result ≡ normal_answer formula sign buf.old }
    ensures left { buf.new ≡ normal_left formula sign buf.old }
{
    let outcome = rule_file::check::check_formula(formula);
    match outcome {
        Outcome::Refused(refusal) => Bytes::Refused(refusal),
        Outcome::Accepted => write_form(formula, sign, buf),
    }
}

// The bound, from the number of rows alone.
pub fn bound_of(formula: Formula) -> usize
    ensures bound { result ≡ bound_of formula }
{
    29 + 44 * (formula.rows as usize)
}

// SERVICE: a bound on the length of the normal form's file.
pub fn bound(formula: Formula) -> Bytes
    ensures answer { result ≡ bound_answer formula }
{
    let outcome = rule_file::check::check_formula(formula);
    match outcome {
        Outcome::Refused(refusal) => Bytes::Refused(refusal),
        Outcome::Accepted => Bytes::Count(bound_of(formula)),
    }
}
