// Monitors of the rows of a normal form (01, "Monitors"): what each says in one cycle.
#![tactic(auto)]

ghost use Rattle.std.specs.Prelude.{◌≡◌};
ghost use Rattle.monitors.specs.Monitor.{awaits, checks, goes, waits};
ghost use Rattle.monitors.specs.Monitor.{binary_monitor, constant_monitor, row_monitor, signal_monitor, unary_monitor};

use tables::row::{BinaryKind, ConstantKind, Row, SignalKind, UnaryKind};

// What a monitor says in one cycle.
#[derive(Clone, Copy)]
pub struct Output {
    pub failed: bool,
    pub accept: bool,
    pub pending: bool,
}

// The row itself in this cycle: whether it is active, and whether it was pending one cycle earlier.
#[derive(Clone, Copy)]
pub struct RowState {
    pub active: bool,
    pub pending: bool,
}

impl RowState {
    // Whether the row is active, or was pending one cycle earlier.
    fn goes(self) -> bool
        ensures answer { result ≡ goes self }
    {
        self.active | self.pending
    }
}

// What is not named is: pending 0, failed 0, accept 1.
fn waits(pending: bool, failed: bool) -> Output
    ensures answer { result ≡ waits pending failed }
{
    Output {
        failed,
        accept: true,
        pending,
    }
}

fn checks(failed: bool) -> Output
    ensures answer { result ≡ checks failed }
{
    waits(false, failed)
}

fn awaits(pending: bool, failed: bool) -> Output
    ensures answer { result ≡ awaits pending failed }
{
    Output {
        accept: !pending,
        ..waits(pending, failed)
    }
}

pub fn constant(kind: ConstantKind, state: RowState) -> Output
    ensures answer { result ≡ constant_monitor kind state }
{
    match kind {
        ConstantKind::True => checks(false),
        ConstantKind::False => checks(state.active),
    }
}

pub fn signal(kind: SignalKind, on: bool, state: RowState) -> Output
    ensures answer { result ≡ signal_monitor kind on state }
{
    match kind {
        SignalKind::Sig => checks(state.active & !on),
        SignalKind::Nsig => checks(state.active & on),
    }
}

pub fn unary(kind: UnaryKind, a: bool, state: RowState) -> Output
    ensures answer { result ≡ unary_monitor kind a state }
{
    let goes = state.goes();
    match kind {
        UnaryKind::Not => checks(false),
        UnaryKind::Next => waits(state.active, state.pending & !a),
        UnaryKind::Always => waits(goes, goes & !a),
        UnaryKind::Ever => awaits(goes & !a, false),
    }
}

pub fn binary(kind: BinaryKind, a: bool, b: bool, state: RowState) -> Output
    ensures answer { result ≡ binary_monitor kind a b state }
{
    let goes = state.goes();
    match kind {
        BinaryKind::And => checks(state.active & !(a & b)),
        BinaryKind::Or => checks(state.active & !(a | b)),
        BinaryKind::Weak => waits(goes & !b, goes & !b & !a),
        BinaryKind::Until => awaits(goes & !b, goes & !b & !a),
        BinaryKind::Release => waits(goes & !a, goes & !b),
        BinaryKind::Srelease => awaits(goes & !a, goes & !b),
    }
}

// The monitor of a row. `first` and `second` are what stands at the row's numbers in this cycle: the signal, or the activators of
// its operands; what it has no number for does not count.
pub fn row(row: Row, first: bool, second: bool, state: RowState) -> Output
    ensures answer { result ≡ row_monitor row first second state }
{
    match row {
        Row::Constant(kind) => constant(kind, state),
        Row::Signal(kind, _) => signal(kind, first, state),
        Row::Unary(kind, _) => unary(kind, first, state),
        Row::Binary(kind, _, _) => binary(kind, first, second, state),
    }
}
