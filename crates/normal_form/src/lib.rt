// Negation normal form (01, "Normal form"): of a formula, and of its negation.
#![tactic(auto)]

ghost use Rattle.std.specs.Prelude.{◌≡◌};
ghost use Rattle.rule_file.specs.Valid.{InRange};
ghost use Rattle.normal_form.specs.Numbering.{normal_form};

use crate::sign::Sign;
use tables::row::{Formula, NormalForm};

pub mod numbering;
pub mod reach;
pub mod row;
pub mod sign;

// The normal form of the formula (plain) or of its negation (negated).
// Stays: callers hand over any `Formula`, so `InRange` is asked here; a checked type for the two steps alone would state it again.
pub fn normal_form(formula: Formula, sign: Sign) -> NormalForm
    requires { InRange formula }
    ensures answer { result ≡ normal_form formula sign }
{
    let marks = reach::reach(formula, sign);
    numbering::number_rows(formula, marks)
}
