// The rows that the root reaches, and under which signs.
ghost use Rattle.std.specs.Prelude.{◌≡◌};
ghost use Rattle.rule_file.specs.Valid.{InRange};
ghost use Rattle.normal_form.specs.Operand.{Below};
ghost use Rattle.normal_form.specs.Reach.{operands_marked, reach as reachOf};

use crate::sign::Sign;
use crate::{row, sign};
use tables::row::{Formula, Row};

// The operands of a row under a sign get their marks.
fn mark_operands(marks: &mut [bool; 128], row: Row, sign: Sign)
    requires { Below 65 row }
    ensures left { marks.new ≡ operands_marked row sign marks.old }
{
    let under = row::operand_sign(row, sign);
    match row {
        Row::Constant(_) | Row::Signal(_, _) => {}
        Row::Unary(_, a) => marks[sign::slot(a, under)] = true,
        Row::Binary(_, a, b) => {
            marks[sign::slot(a, under)] = true;
            marks[sign::slot(b, under)] = true;
        }
    }
}

// A mark for each slot that the root, taken with a sign, reaches. Operands are earlier rows, so one pass downward finds all.
pub fn reach(formula: Formula, sign: Sign) -> [bool; 128]
    requires { InRange formula }
    ensures answer { result ≡ reachOf formula sign }
{
    let mut marks = [false; 128];
    marks[sign::slot(formula.rows, sign)] = true;
    for j in (0..2 * formula.rows as usize).rev() {
        if marks[j] {
            mark_operands(&mut marks, formula.places[j / 2].row, sign::sign_of(j));
        }
    }
    marks
}
