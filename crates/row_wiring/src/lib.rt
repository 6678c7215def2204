// The gates of one row's monitor, by their literals (docs/CIRCUIT.md).
#![tactic(auto)]

ghost use Rattle.std.specs.Prelude.{◌+◌, ◌*◌, ◌≤◌, ◌<◌, ◌≡◌};
ghost use Rattle.monitor_circuit.specs.Wiring.{awaits as awaits_of, both as both_of, checks as checks_of};
ghost use Rattle.monitor_circuit.specs.Wiring.{spare as spare_of, waits as waits_of};
ghost use Rattle.row_wiring.specs.Own.{Small, operands_as, own_of, wiring_as, wiring_at};
ghost use Rattle.row_wiring.specs.Own.{binary_of, constant_of, idle_of, signal_of, unary_of};

use tables::row::{BinaryKind, ConstantKind, Row, SignalKind, UnaryKind};

// The operands of a gate.
#[derive(Clone, Copy)]
pub struct Operands {
    pub rhs0: u32,
    pub rhs1: u32,
}

// A row's three gates, and the literals of what its monitor says.
#[derive(Clone, Copy)]
pub struct Wiring {
    pub first: Operands,
    pub second: Operands,
    pub third: Operands,
    pub failed: u32,
    pub accept: u32,
    pub pending: u32,
}

// The literals of a row's own variables: its activator, its latch and its gates.
// Stays: `Small` in the clauses and no ghost field, since the law `own_literals` makes one of any numbers.
#[derive(Clone, Copy)]
pub struct Own {
    pub activator: u32,
    pub latch: u32,
    pub first: u32,
    pub second: u32,
    pub third: u32,
}

fn both(rhs0: u32, rhs1: u32) -> Operands
    ensures answer { operands_as result ≡ both_of rhs0 rhs1 }
{
    Operands { rhs0, rhs1 }
}

// A gate that the row does not need.
fn spare() -> Operands
    ensures answer { operands_as result ≡ spare_of }
{
    both(0, 0)
}

// What is not named is: pending 0, failed 0, accept 1.
fn checks(first: Operands, second: Operands, failed: u32) -> Wiring
    ensures answer { wiring_as result ≡ checks_of (operands_as first) (operands_as second) failed }
{
    waits(first, second, spare(), 0, failed)
}

fn waits(first: Operands, second: Operands, third: Operands, pending: u32, failed: u32) -> Wiring
    ensures answer { wiring_as result ≡ waits_of (operands_as first) (operands_as second) (operands_as third) pending failed }
{
    Wiring {
        first,
        second,
        third,
        failed,
        accept: 1,
        pending,
    }
}

fn awaits(first: Operands, second: Operands, third: Operands, pending: u32, failed: u32) -> Wiring
    requires { pending < 100000 }
    ensures answer { wiring_as result ≡ awaits_of (operands_as first) (operands_as second) (operands_as third) pending failed }
{
    Wiring {
        accept: pending + 1,
        ..waits(first, second, third, pending, failed)
    }
}

impl Own {
    // Neither active nor pending.
    fn idle(self) -> Operands
        requires { Small self }
        ensures answer { operands_as result ≡ idle_of self }
    {
        both(self.activator + 1, self.latch + 1)
    }

    fn constant(self, kind: ConstantKind) -> Wiring
        ensures answer { wiring_as result ≡ constant_of self kind }
    {
        match kind {
            ConstantKind::True => checks(spare(), spare(), 0),
            ConstantKind::False => checks(spare(), spare(), self.activator),
        }
    }

    // The literal of the signal is given.
    fn signal(self, kind: SignalKind, a: u32) -> Wiring
        requires { a < 100000 }
        ensures answer { wiring_as result ≡ signal_of self kind a }
    {
        match kind {
            SignalKind::Sig => checks(both(self.activator, a + 1), spare(), self.first),
            SignalKind::Nsig => checks(both(self.activator, a), spare(), self.first),
        }
    }

    // Those of the operands' activators are given.
    fn unary(self, kind: UnaryKind, a: u32) -> Wiring
        requires { (a < 100000) × Small self }
        ensures answer { wiring_as result ≡ unary_of self kind a }
    {
        let x = self.first;
        let waiting = both(x + 1, a + 1);
        match kind {
            UnaryKind::Not => checks(spare(), spare(), 0),
            UnaryKind::Next => waits(both(self.latch, a + 1), spare(), spare(), self.activator, x),
            UnaryKind::Always => waits(self.idle(), waiting, spare(), x + 1, self.second),
            UnaryKind::Ever => awaits(self.idle(), waiting, spare(), self.second, 0),
        }
    }

    fn binary(self, kind: BinaryKind, a: u32, b: u32) -> Wiring
        requires { (a < 100000) × (b < 100000) × Small self }
        ensures answer { wiring_as result ≡ binary_of self kind a b }
    {
        let z = self.activator;
        let x = self.first;
        let y = self.second;
        let not_a = both(x + 1, a + 1);
        let not_b = both(x + 1, b + 1);
        match kind {
            BinaryKind::And => checks(both(a, b), both(z, x + 1), y),
            BinaryKind::Or => checks(both(a + 1, b + 1), both(z, x), y),
            BinaryKind::Weak => waits(self.idle(), not_b, both(y, a + 1), y, self.third),
            BinaryKind::Until => awaits(self.idle(), not_b, both(y, a + 1), y, self.third),
            BinaryKind::Release => waits(self.idle(), not_a, not_b, y, self.third),
            BinaryKind::Srelease => awaits(self.idle(), not_a, not_b, y, self.third),
        }
    }

    // The gates of a row that has these literals, behind so many signals.
    fn wiring(self, row: Row, signals: u8) -> Wiring
        requires { Small self }
        ensures answer { wiring_as result ≡ wiring_at row signals self }
    {
        match row {
            Row::Constant(kind) => self.constant(kind),
            Row::Signal(kind, s) => self.signal(kind, signal_literal(s)),
            Row::Unary(kind, a) => self.unary(kind, activator_literal(signals, a)),
            Row::Binary(kind, a, b) => {
                let first = activator_literal(signals, a);
                let second = activator_literal(signals, b);
                self.binary(kind, first, second)
            }
        }
    }
}

// The literal of signal s, and that of row k's activator behind so many signals.
fn signal_literal(s: u8) -> u32
    ensures answer { (result ≡ 2 * s) × (result < 100000) }
{
    2 * u32::from(s)
}

fn activator_literal(signals: u8, k: u8) -> u32
    ensures answer { (result ≡ 2 * (signals + k)) × (result < 100000) }
{
    2 * (u32::from(signals) + u32::from(k))
}

// The literals of row k's own variables, k counted from 1.
pub fn own_of(signals: u8, rows: u8, k: usize) -> Own
    requires { (1 ≤ k) × (k ≤ 128) }
    ensures answer { result ≡ own_of signals rows k }
    ensures small { Small result }
{
    let k = k as u32;
    let activators = u32::from(signals);
    let latches = activators + u32::from(rows);
    let gates = latches + u32::from(rows) + 3 * (k - 1);
    Own {
        activator: 2 * (activators + k),
        latch: 2 * (latches + k),
        first: 2 * (gates + 1),
        second: 2 * (gates + 2),
        third: 2 * (gates + 3),
    }
}

// The gates of row k, k counted from 1, where there are so many signals and rows.
pub fn wiring_of(row: Row, signals: u8, rows: u8, k: usize) -> Wiring
    requires { (1 ≤ k) × (k ≤ 128) }
    ensures answer { wiring_as result ≡ wiring_at row signals (own_of signals rows k) }
{
    own_of(signals, rows, k).wiring(row, signals)
}
