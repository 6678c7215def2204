// Formulas as reading leaves them (01: "A rule in memory is its counts together with its 64 row places, the unused ones holding `true`").
#![tactic(auto)]

ghost use Rattle.std.specs.Prelude.{◌≡◌, ◌↔◌, true, ◌≤◌};
ghost use Rattle.tables.specs.Place.{placed};
ghost use Rattle.text.specs.Result.Result.{accepted};
ghost use Rattle.rule_file.specs.Rule.{in_place, parse_rule, unused};
ghost use Rattle.rule_file.specs.Valid.{InRange, Valid};
ghost use Rattle.rule_file.specs.Written.{rows_of, written_rule};

use tables::refusal::Outcome;
use tables::row::{ConstantKind, Formula, Row, RowPlace};

// Whether a row is `true`.
fn is_true(row: Row) -> bool
    ensures exactly { (result ≡ true) ↔ (row ≡ unused) }
{
    matches!(row, Row::Constant(ConstantKind::True))
}

// Whether each place behind the used rows holds `true`.
fn unused_true(formula: Formula) -> bool
    requires { formula.rows ≤ 64 }
    ensures exactly { (result ≡ true) ↔ (formula.places ≡ placed 64 in_place unused (rows_of formula)) }
{
    formula.places[formula.rows as usize..]
        .iter()
        .all(|place| is_true(place.row))
}

// Whether a formula is as reading leaves it: some rule file holds it.
pub fn is_read(formula: Formula) -> bool
    ensures exactly { (result ≡ true) ↔ Valid formula }
{
    let outcome = rule_file::check::check_formula(formula);
    match outcome {
        Outcome::Refused(_) => false,
        Outcome::Accepted => unused_true(formula),
    }
}

// The formula as reading it, written out as its file, would leave it: the unused places hold `true`.
pub fn as_read(formula: Formula) -> Formula
    requires { InRange formula }
    ensures read { parse_rule (written_rule formula) ≡ accepted result }
{
    let mut places = formula.places;
    let unused = Row::Constant(ConstantKind::True);
    places[formula.rows as usize..].fill(RowPlace { row: unused });
    Formula {
        signals: formula.signals,
        rows: formula.rows,
        places,
    }
}
