// One cycle of the monitors of a rule, as a service (01, "Monitors").
#![tactic(auto)]

ghost use Rattle.std.specs.Prelude.{◌≡◌, ◌++◌, ◌≤◌, length, drop};
ghost use Rattle.meaning.specs.Rows.{Each, EachSignal};
ghost use Rattle.monitors.specs.Monitor.{monitor};
ghost use Rattle.monitors.specs.State.{state_size};
ghost use Rattle.rule_file.specs.Valid.{InRange};
ghost use Rattle.normal_form.specs.Form.{InNormalForm};
ghost use Rattle.normal_form.specs.Numbering.{normal_form};
ghost use Rattle.normal_form.specs.declared.sign.Sign.TheVariants.{Plain};
ghost use Rattle.step.specs.Fitting.{Fitting};
ghost use Rattle.step.specs.Step.{digit_at, digit_of, form_answer, form_left, form_outcome, form_output, output_size, step_answer, step_left};

use monitors::{Output, RowState};
use normal_form::sign::Sign;
use tables::refusal::{Outcome, Reason, call_refused};
use tables::row::{Formula, NormalForm, Row};
use text::digits::are_digits;
use writing::answer::Bytes;

// Digit `number` of a slice, counted from 1.
fn is_on(digits: &[u8], number: usize) -> bool
    requires { (1 ≤ number) × (number ≤ length digits.now) }
    ensures answer { result ≡ digit_at digits.now number }
{
    digits[number - 1] == b'1'
}

fn digit(on: bool) -> u8
    ensures answer { result ≡ digit_of on }
{
    if on { b'1' } else { b'0' }
}

// How many digits a state has: one for each row's pending.
fn state_size(rows: usize) -> usize
    ensures answer { result ≡ state_size rows }
{
    rows
}

// How many digits are written: failed, accept and the state that is handed on.
fn output_size(rows: usize) -> usize
    requires { rows ≤ 255 }
    ensures answer { result ≡ output_size rows }
{
    2 * rows + state_size(rows)
}

// What the monitor of a row says.
fn row_output(row: Row, state: RowState, activators: &[u8], signals: &[u8]) -> Output
    requires each { Each (λ a. (1 ≤ a) × (a ≤ length activators.now)) row }
    requires each_signal { EachSignal (λ s. (1 ≤ s) × (s ≤ length signals.now)) row }
    ensures answer { result ≡ monitor (digit_at activators.now) (digit_at signals.now) row state }
{
    match row {
        Row::Constant(kind) => monitors::constant(kind, state),
        Row::Signal(kind, s) => monitors::signal(kind, is_on(signals, s as usize), state),
        Row::Unary(kind, a) => monitors::unary(kind, is_on(activators, a as usize), state),
        Row::Binary(kind, a, b) => monitors::binary(
            kind,
            is_on(activators, a as usize),
            is_on(activators, b as usize),
            state,
        ),
    }
}

// The digits of all rows, at the buffer's start.
fn put_outputs(buf: &mut [u8], form: NormalForm, given: &[u8], activators: &[u8], signals: &[u8])
    requires { InNormalForm form × Fitting form given.now activators.now signals.now (length buf.old) }
    ensures left { buf.new ≡ form_output form given.now activators.now signals.now
        ++ drop (output_size form.rows) buf.old }
{
    let rows = form.rows as usize;
    let mut k = 0;
    while k < rows {
        let place = form.places[k];
        let row = place.row;
        let state = RowState {
            active: is_on(activators, k + 1),
            pending: is_on(given, k + 1),
        };
        let output = row_output(row, state, activators, signals);
        buf[k] = digit(output.failed);
        buf[rows + k] = digit(output.accept);
        buf[2 * rows + k] = digit(output.pending);
        k += 1;
    }
}

// The refusals of a call on a rule that has passed its own check.
fn check_call(
    form: NormalForm,
    given: &[u8],
    activators: &[u8],
    signals: &[u8],
    room: usize,
) -> Outcome
    ensures answer { result ≡ form_outcome form given.now activators.now signals.now room }
{
    let rows = form.rows as usize;
    let digits = are_digits(given) & are_digits(activators) & are_digits(signals);
    let count = signals.len() == form.signals as usize;
    let sizes = (given.len() == state_size(rows)) & (activators.len() == rows);
    if !digits {
        return call_refused(Reason::WrongForm);
    }
    if !count {
        return call_refused(Reason::SignalsDiffer);
    }
    if !sizes {
        return call_refused(Reason::SizeDiffers);
    }
    if room < output_size(rows) {
        return call_refused(Reason::ShortBuffer);
    }
    Outcome::Accepted
}

// One cycle of the monitors of a formula that is known to be in range, as one that was read is.
pub fn step_met(
    formula: Formula,
    given: &[u8],
    activators: &[u8],
    signals: &[u8],
    buf: &mut [u8],
) -> Bytes
    requires { InRange formula }
    ensures answer { result ≡ form_answer (normal_form formula Plain) given.now activators.now
        signals.now buf.old }
    ensures left { buf.new ≡ form_left (normal_form formula Plain) given.now activators.now
        signals.now buf.old }
{
    let form = normal_form::normal_form(formula, Sign::Plain);
    let call = check_call(form, given, activators, signals, buf.len());
    match call {
        Outcome::Refused(refusal) => Bytes::Refused(refusal),
        Outcome::Accepted => {
            put_outputs(buf, form, given, activators, signals);
            Bytes::Count(output_size(form.rows as usize))
        }
    }
}

// SERVICE: one cycle of the monitors, from the state one cycle earlier (each row's pending), each row's activator and each signal.
pub fn step(
    formula: Formula,
    given: &[u8],
    activators: &[u8],
    signals: &[u8],
    buf: &mut [u8],
) -> Bytes
    ensures answer { result ≡ step_answer formula given.now activators.now signals.now
        buf.old }
    ensures left { buf.new ≡ step_left formula given.now activators.now signals.now
        buf.old }
{
    let own = rule_file::check::check_formula(formula);
    match own {
        Outcome::Refused(refusal) => Bytes::Refused(refusal),
        Outcome::Accepted => step_met(formula, given, activators, signals, buf),
    }
}
