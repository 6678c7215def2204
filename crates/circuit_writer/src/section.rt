// The sections of the file of a normal form's circuit, in their order.
ghost use Rattle.std.specs.Prelude.{ℕ, ◌+◌, ◌*◌, ◌≤◌, length};
ghost use Rattle.std.specs.List.{Contains};
ghost use Rattle.writing.specs.Lent.{Wrote};
ghost use Rattle.circuit_file.specs.Written.{written_lines};
ghost use Rattle.normal_form.specs.Form.{InNormalForm};
ghost use Rattle.monitor_circuit.specs.Wiring.{Wiring as MeantWiring};
ghost use Rattle.circuit_writer.specs.Section.{Says, gate_lines, input_lines, latch_lines, output_lines, said_lines, said_literals};

use line_writer::put_numbers;
use row_wiring::{Wiring, own_of, wiring_of};
use tables::row::NormalForm;

// The signals, then the activators by row: their literals go on.
pub fn put_inputs(buf: &mut [u8], at: usize, form: NormalForm) -> usize
    requires { InNormalForm form × (at + 6 * (form.signals + form.rows) ≤ length buf.old) }
    ensures text { Wrote buf.old at (written_lines (input_lines form)) buf.new result }
    ensures room { result ≤ at + 6 * (form.signals + form.rows) }
{
    let inputs = u32::from(form.signals) + u32::from(form.rows);
    let mut end = at;
    for i in 0..inputs {
        end = put_numbers(buf, end, &[2 * (i + 1)]);
    }
    end
}

// Each row's latch, which takes over the row's pending.
pub fn put_latches(buf: &mut [u8], at: usize, form: NormalForm) -> usize
    requires { InNormalForm form × (at + 12 * form.rows ≤ length buf.old) }
    ensures text { Wrote buf.old at (written_lines (latch_lines form)) buf.new result }
    ensures room { result ≤ at + 12 * form.rows }
{
    let mut end = at;
    for (k, place) in form.places[..form.rows as usize].iter().enumerate() {
        let own = own_of(form.signals, form.rows, k + 1);
        let wiring = wiring_of(place.row, form.signals, form.rows, k + 1);
        end = put_numbers(buf, end, &[own.latch, wiring.pending]);
    }
    end
}

// One of the three literals that a monitor says, by row.
fn put_said<F: Fn(Wiring) -> u32>(buf: &mut [u8], at: usize, form: &NormalForm, said: F) -> usize
    requires fits { InNormalForm form.now × (at + 6 * form.now.rows ≤ length buf.old) }
    requires callable { F.IsAlwaysCallable said }
    requires one { (w : Wiring) (l : ℕ) → F.post said w l → Contains (said_literals w) l }
    ensures text { (literal : MeantWiring → ℕ) → Says (F.post said) literal
        → Wrote buf.old at (written_lines (said_lines literal form.now)) buf.new result }
    ensures room { result ≤ at + 6 * form.now.rows }
{
    let mut end = at;
    for (k, place) in form.places[..form.rows as usize].iter().enumerate() {
        let wiring = wiring_of(place.row, form.signals, form.rows, k + 1);
        end = put_numbers(buf, end, &[said(wiring)]);
    }
    end
}

// Failed, then accept, then pending.
pub fn put_outputs(buf: &mut [u8], at: usize, form: NormalForm) -> usize
    requires { InNormalForm form × (at + 18 * form.rows ≤ length buf.old) }
    ensures text { Wrote buf.old at (written_lines (output_lines form)) buf.new result }
    ensures room { result ≤ at + 18 * form.rows }
{
    let a = put_said(buf, at, &form, |wiring| wiring.failed);
    let b = put_said(buf, a, &form, |wiring| wiring.accept);
    put_said(buf, b, &form, |wiring| wiring.pending)
}

// The three gates of each row.
pub fn put_gates(buf: &mut [u8], at: usize, form: NormalForm) -> usize
    requires { InNormalForm form × (at + 54 * form.rows ≤ length buf.old) }
    ensures text { Wrote buf.old at (written_lines (gate_lines form)) buf.new result }
    ensures room { result ≤ at + 54 * form.rows }
{
    let mut end = at;
    for (k, place) in form.places[..form.rows as usize].iter().enumerate() {
        let own = own_of(form.signals, form.rows, k + 1);
        let wiring = wiring_of(place.row, form.signals, form.rows, k + 1);
        let (first, second, third) = (wiring.first, wiring.second, wiring.third);
        let a = put_numbers(buf, end, &[own.first, first.rhs0, first.rhs1]);
        let b = put_numbers(buf, a, &[own.second, second.rhs0, second.rhs1]);
        end = put_numbers(buf, b, &[own.third, third.rhs0, third.rhs1]);
    }
    end
}
