// The rows of the normal form, listed in one pass over the slots.
ghost use Rattle.std.specs.Prelude.{◌≡◌, ◌≤◌, ◌*◌};
ghost use Rattle.rule_file.specs.Valid.{InRange};
ghost use Rattle.normal_form.specs.Operand.{Below};
ghost use Rattle.normal_form.specs.Numbering.{listed_form, listing, number_in, renumbered};

use crate::sign::Sign;
use crate::{row, sign};
use tables::row::{ConstantKind, Formula, NormalForm, Row, RowPlace, UnaryKind};

// The number of the row that stands for row `a` under the sign.
fn number_in(numbers: &[u8; 128], a: u8, sign: Sign) -> u8
    requires some { 1 ≤ a }
    requires most { a ≤ 64 }
    ensures answer { result ≡ number_in numbers.now a sign }
{
    numbers[sign::slot(a, sign)]
}

// A row with its operands' new numbers, each taken under the sign.
fn renumber(numbers: &[u8; 128], row: Row, sign: Sign) -> Row
    requires { Below 65 row }
    ensures answer { result ≡ renumbered numbers.now sign row }
{
    match row {
        Row::Constant(_) | Row::Signal(_, _) => row,
        Row::Unary(kind, a) => Row::Unary(kind, number_in(numbers, a, sign)),
        Row::Binary(kind, a, b) => Row::Binary(
            kind,
            number_in(numbers, a, sign),
            number_in(numbers, b, sign),
        ),
    }
}

// The rows of the slots that are marked. For each slot that is done, `numbers` has the number of the row that stands for it (0: none):
// for a `not` row that of its operand with the sign turned; any other row, or its dual, is the next row.
pub fn number_rows(formula: Formula, marks: [bool; 128]) -> NormalForm
    requires { InRange formula }
    ensures answer { result ≡ listed_form formula.signals (listing marks formula.places (2 * formula.rows)) }
{
    let unused = Row::Constant(ConstantKind::True);
    let mut places = [RowPlace { row: unused }; 128];
    let mut numbers = [0u8; 128];
    let mut rows = 0u8;
    for j in 0..2 * formula.rows as usize {
        if marks[j] {
            let row = formula.places[j / 2].row;
            let sign = sign::sign_of(j);
            if let Row::Unary(UnaryKind::Not, a) = row {
                numbers[j] = number_in(&numbers, a, sign::turned(sign));
            } else {
                places[rows as usize] = RowPlace {
                    row: renumber(&numbers, row::signed_row(row, sign), sign),
                };
                rows += 1;
                numbers[j] = rows;
            }
        }
    }
    NormalForm {
        signals: formula.signals,
        rows,
        places,
    }
}
