// How long the normal form's file is (02, request 3): exactly, without writing it.
#![tactic(auto)]

ghost use Rattle.std.specs.Prelude.{◌≡◌, ◌≤◌, length};
ghost use Rattle.rule_file.specs.Valid.{InRange};
ghost use Rattle.row_writer.specs.Normal.{written_normal};
ghost use Rattle.normal_file.specs.Answer.{output};
ghost use Rattle.normal_length.specs.Answer.{length_answer};

use normal_form::sign::Sign;
use tables::refusal::Outcome;
use tables::row::{Formula, NormalForm};
use writing::answer::Bytes;
use writing::length::number_length;

mod row;

// The whole file: `format=1`, `signals=` and `rows=` with their line feeds, and the rows.
fn file_length(form: NormalForm) -> usize
    requires { form.rows ≤ 128 }
    ensures length { result ≡ length (written_normal form) }
{
    let signals = number_length(form.signals as u32);
    let rows = number_length(form.rows as u32);
    24 + signals + rows + row::rows_length(form)
}

// The length for a formula that is known to be in range, as one that was read is.
pub fn measure_form(formula: Formula, sign: Sign) -> usize
    requires { InRange formula }
    ensures length { result ≡ length (output formula sign) }
{
    file_length(normal_form::normal_form(formula, sign))
}

// SERVICE: how many bytes the file of the normal form of the formula (plain) or of its negation (negated) has.
pub fn measure(formula: Formula, sign: Sign) -> Bytes
    ensures answer { result ≡ length_answer formula sign }
{
    let outcome = rule_file::check::check_formula(formula);
    match outcome {
        Outcome::Refused(refusal) => Bytes::Refused(refusal),
        Outcome::Accepted => Bytes::Count(measure_form(formula, sign)),
    }
}
