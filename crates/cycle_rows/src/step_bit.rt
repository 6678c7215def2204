// A row in a cycle, from what its step finds: its operands under their signs, then its pattern.
ghost use Rattle.std.specs.Prelude.{◌≡◌};
ghost use Rattle.meaning.specs.Rows.{positive};
ghost use Rattle.meaning.specs.Pattern.{constant_bit, left, pattern_of, right, signal_sign, signed_bit};
ghost use Rattle.cycle_rows.specs.Cycle.{pattern_from};
ghost use Rattle.cycle_rows.specs.Meant.{meant};
ghost use Rattle.cycle_rows.specs.Steps.{from_cell, left_constant, step_bit};

use crate::pattern::{Pattern, pattern_of};
use tables::row::{ConstantKind, Row, SignalKind, UnaryKind};

fn constant(kind: ConstantKind) -> bool
    ensures answer { result ≡ constant_bit kind }
{
    matches!(kind, ConstantKind::True)
}

fn signal(kind: SignalKind, on: bool) -> bool
    ensures answer { result ≡ signed_bit (signal_sign kind) on }
{
    match kind {
        SignalKind::Sig => on,
        SignalKind::Nsig => !on,
    }
}

// `not` reads its operand negated.
fn signed(kind: UnaryKind, on: bool) -> bool
    ensures answer { result ≡ signed_bit (positive kind) on }
{
    match kind {
        UnaryKind::Not => !on,
        UnaryKind::Next | UnaryKind::Always | UnaryKind::Ever => on,
    }
}

// The right operand of a row, from what its cell holds.
fn right_bit(row: Row, b: bool) -> bool
    ensures answer { result ≡ from_cell (right row) b }
{
    match row {
        Row::Constant(kind) => constant(kind),
        Row::Signal(kind, _) => signal(kind, b),
        Row::Unary(kind, _) => signed(kind, b),
        Row::Binary(_, _, _) => b,
    }
}

// Until with one operand has true on its left, release false. Elsewhere it does not count.
fn left_constant(pattern: Pattern) -> bool
    ensures answer { result ≡ left_constant (meant pattern) }
{
    match pattern {
        Pattern::Now | Pattern::Next => true,
        Pattern::Connective(either) => either,
        Pattern::Temporal(until, _) => until,
    }
}

// The left operand.
fn left_bit(row: Row, pattern: Pattern, a: bool) -> bool
    requires { meant pattern ≡ pattern_of row }
    ensures answer { result ≡ from_cell (left row) a }
{
    match row {
        Row::Constant(_) | Row::Signal(_, _) => true,
        Row::Unary(_, _) => left_constant(pattern),
        Row::Binary(_, _, _) => a,
    }
}

// A row by its pattern, from its operands and from itself one cycle on. `next` finds its operand as it stands one cycle on.
fn pattern_bit(pattern: Pattern, a: bool, b: bool, own: bool) -> bool
    ensures answer { result ≡ pattern_from (meant pattern) a b b own }
{
    match pattern {
        Pattern::Now | Pattern::Next => b,
        Pattern::Connective(either) => if either { a | b } else { a & b },
        Pattern::Temporal(until, _) => if until { b | (a & own) } else { b & (a | own) },
    }
}

// A row in a cycle, from the cells of its operands and from itself one cycle on.
pub fn step_bit(row: Row, a: bool, b: bool, own: bool) -> bool
    ensures answer { result ≡ step_bit row a b own }
{
    let pattern = pattern_of(row);
    let left = left_bit(row, pattern, a);
    let right = right_bit(row, b);
    pattern_bit(pattern, left, right, own)
}
