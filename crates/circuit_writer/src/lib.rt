// The file of a rule's circuit, into a lent buffer (02, 4).
#![tactic(auto)]

ghost use Rattle.std.specs.Prelude.{◌≡◌, ◌≤◌, length};
ghost use Rattle.rule_file.specs.Valid.{InRange};
ghost use Rattle.normal_form.specs.Form.{InNormalForm};
ghost use Rattle.writing.specs.Answer.{Delivers};
ghost use Rattle.writing.specs.Lent.{Wrote};
ghost use Rattle.circuit_file.specs.Written.{written_circuit};
ghost use Rattle.monitor_circuit.specs.Monitors.{circuit_of};
ghost use Rattle.circuit_writer.specs.Answer.{circuit_text, writer_answer, writer_left};

use circuit_line::section::Header;
use normal_form::sign::Sign;
use tables::refusal::Outcome;
use tables::row::{Formula, NormalForm};
use writing::answer::Bytes;

pub mod section;

// The whole file, at the buffer's start. A number takes six bytes at most with the byte behind it, and a form of 32 signals and 128 rows
// has 1,952 of them behind the header.
fn put_circuit(buf: &mut [u8], form: NormalForm) -> usize
    requires { InNormalForm form × (11746 ≤ length buf.old) }
    ensures text { Wrote buf.old 0 (written_circuit (circuit_of form)) buf.new result }
{
    let signals = form.signals as usize;
    let rows = form.rows as usize;
    let header = Header {
        maximum: signals + 5 * rows,
        inputs: signals + rows,
        latches: rows,
        outputs: 3 * rows,
        gates: 3 * rows,
    };
    let a = line_writer::put_header(buf, header);
    let b = section::put_inputs(buf, a, form);
    let c = section::put_latches(buf, b, form);
    let d = section::put_outputs(buf, c, form);
    section::put_gates(buf, d, form)
}

// The file of a formula that is known to be in range, as one that was read is. It is made in an array of its own first, since it is not
// measured before it is written.
pub fn write_form(formula: Formula, buf: &mut [u8]) -> Bytes
    requires { InRange formula }
    ensures delivers { Delivers (circuit_text formula) buf.old buf.new result }
{
    let form = normal_form::normal_form(formula, Sign::Plain);
    let mut space = [0u8; 11746];
    let n = put_circuit(&mut space, form);
    writing::deliver::deliver(&space[..n], buf)
}

// SERVICE: the file of the circuit of a formula's monitors, written whole or not at all.
pub fn write_circuit(formula: Formula, buf: &mut [u8]) -> Bytes
    ensures answer { result ≡ writer_answer formula buf.old }
    ensures left { buf.new ≡ writer_left formula buf.old }
{
    let outcome = rule_file::check::check_formula(formula);
    match outcome {
        Outcome::Refused(refusal) => Bytes::Refused(refusal),
        Outcome::Accepted => write_form(formula, buf),
    }
}
