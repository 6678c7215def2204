// The patterns of rows (meaning/specs/Pattern), by which lassos are filled instead of by kinds.
ghost use Rattle.std.specs.Prelude.{◌≡◌};
ghost use Rattle.meaning.specs.Pattern.{binary_pattern, pattern_of, unary_pattern};
ghost use Rattle.cycle_rows.specs.Meant.{meant};

use tables::row::{BinaryKind, Row, UnaryKind};

// A row is its right operand, or that one cycle later, or a connective of its two operands, or until or its like of them. The first bool
// tells `or`, until and weak from `and` and the releases; the second what holds where the goal is never met.
#[derive(Clone, Copy)]
pub enum Pattern {
    Now,
    Next,
    Connective(bool),
    Temporal(bool, bool),
}

fn unary(kind: UnaryKind) -> Pattern
    ensures pattern { meant result ≡ unary_pattern kind }
{
    match kind {
        UnaryKind::Not => Pattern::Now,
        UnaryKind::Next => Pattern::Next,
        UnaryKind::Always => Pattern::Temporal(false, true),
        UnaryKind::Ever => Pattern::Temporal(true, false),
    }
}

fn binary(kind: BinaryKind) -> Pattern
    ensures pattern { meant result ≡ binary_pattern kind }
{
    match kind {
        BinaryKind::And => Pattern::Connective(false),
        BinaryKind::Or => Pattern::Connective(true),
        BinaryKind::Weak => Pattern::Temporal(true, true),
        BinaryKind::Until => Pattern::Temporal(true, false),
        BinaryKind::Release => Pattern::Temporal(false, true),
        BinaryKind::Srelease => Pattern::Temporal(false, false),
    }
}

pub fn pattern_of(row: Row) -> Pattern
    ensures pattern { meant result ≡ pattern_of row }
{
    match row {
        Row::Constant(_) | Row::Signal(_, _) => Pattern::Now,
        Row::Unary(kind, _) => unary(kind),
        Row::Binary(kind, _, _) => binary(kind),
    }
}
