// The lane of one row from the lanes of its operands, over an open take. `all` is the lane of its cycles.
ghost use Rattle.std.specs.Prelude.{Bool, ℕ, ◌≤◌};
ghost use Rattle.tables.specs.Bit.{bit_at};
ghost use Rattle.meaning.specs.Rows.{positive};
ghost use Rattle.meaning.specs.Pattern.{binary_pattern, constant_bit, signal_sign, unary_left, unary_pattern, signed_bit};
ghost use Rattle.lanes.specs.Truth.{Shows};
ghost use Rattle.row_lanes.specs.Pass.{CyclesOf, pass_bit};

use lanes::lane;
use tables::row::{BinaryKind, ConstantKind, SignalKind, UnaryKind};
use tables::trace::Lane;

pub fn constant(kind: ConstantKind, all: Lane) -> Lane
    ensures shows { (n : ℕ) → CyclesOf n all → Shows n result (λ i. constant_bit kind) }
{
    match kind {
        ConstantKind::True => all,
        ConstantKind::False => lane::none(),
    }
}

// A signal's lane may have anything behind the last cycle.
pub fn signal(kind: SignalKind, lane: Lane, all: Lane) -> Lane
    ensures shows { (n : ℕ) → CyclesOf n all → Shows n result (λ i. signed_bit (signal_sign kind) (bit_at lane i)) }
{
    let on = lane::both(lane, all);
    match kind {
        SignalKind::Sig => on,
        SignalKind::Nsig => lane::without(all, on),
    }
}

// A row with one operand: ever a is until true a. Strong: nothing holds behind the end, so weak is until, and always a is until a false.
pub fn unary(kind: UnaryKind, a: Lane, all: Lane) -> Lane
    ensures shows { (n : ℕ) (q : ℕ → Bool) → n ≤ 256 → CyclesOf n all → Shows n a q
        → Shows n result (pass_bit n (λ i. unary_left kind) (λ i. signed_bit (positive kind) (q i)) (unary_pattern kind)) }
{
    match kind {
        UnaryKind::Not => lane::without(all, a),
        UnaryKind::Next => lane::next(a),
        UnaryKind::Always => lane::carry(a, lane::none()),
        UnaryKind::Ever => lane::carry(all, a),
    }
}

// A row with two operands: release a b is weak b (a and b), and srelease a b is until b (a and b). Strong: nothing holds behind the end,
// so weak is until, and release is srelease.
pub fn binary(kind: BinaryKind, a: Lane, b: Lane) -> Lane
    ensures shows { (n : ℕ) (p q : ℕ → Bool) → n ≤ 256 → Shows n a p → Shows n b q
        → Shows n result (pass_bit n p q (binary_pattern kind)) }
{
    match kind {
        BinaryKind::And => lane::both(a, b),
        BinaryKind::Or => lane::either(a, b),
        BinaryKind::Weak => lane::carry(a, b),
        BinaryKind::Until => lane::carry(a, b),
        BinaryKind::Release => lane::carry(b, lane::both(a, b)),
        BinaryKind::Srelease => lane::carry(b, lane::both(a, b)),
    }
}
