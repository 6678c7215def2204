// A formula written out as its rule file.
#![tactic(auto)]

ghost use Rattle.std.specs.Prelude.{◌≡◌, ◌≤◌, length};
ghost use Rattle.rule_file.specs.Valid.{InRange};
ghost use Rattle.rule_file.specs.Written.{written_rule};
ghost use Rattle.writing.specs.Answer.{Delivers};
ghost use Rattle.writing.specs.Lent.{Wrote};
ghost use Rattle.rule_writer.specs.Answer.{rule_left, rule_written};

use tables::refusal::Outcome;
use tables::row::Formula;
use writing::answer::Bytes;

// The whole file, at the buffer's start.
fn put_rule(buf: &mut [u8], formula: Formula) -> usize
    requires { (formula.rows ≤ 64) × (1438 ≤ length buf.old) }
    ensures text { Wrote buf.old 0 (written_rule formula) buf.new result }
{
    let a = row_writer::normal::put_counts(&mut *buf, formula.signals, formula.rows);
    row_writer::row::put_rows(buf, a, 1, &formula.places[..formula.rows as usize])
}

// The file of a formula that is known to be in range. It is made in an array of its own first, since its length is known only when all
// is written.
pub fn write_checked(formula: Formula, buf: &mut [u8]) -> Bytes
    requires { InRange formula }
    ensures delivers { Delivers (written_rule formula) buf.old buf.new result }
{
    let mut space = [0u8; 1438];
    let n = put_rule(&mut space, formula);
    writing::deliver::deliver(&space[..n], buf)
}

// The rule file of any formula, written whole or not at all; first the formula's own refusals.
pub fn write_rule(formula: Formula, buf: &mut [u8]) -> Bytes
    ensures answer { result ≡ rule_written formula buf.old }
    ensures left { buf.new ≡ rule_left formula buf.old }
{
    let outcome = rule_file::check::check_formula(formula);
    match outcome {
        Outcome::Refused(refusal) => Bytes::Refused(refusal),
        Outcome::Accepted => write_checked(formula, buf),
    }
}
