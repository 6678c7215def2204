// Rows under a sign.
ghost use Rattle.std.specs.Prelude.{◌≡◌};
ghost use Rattle.normal_form.specs.Operand.{is_not};
ghost use Rattle.normal_form.specs.Sign.{operand_sign, signed};

use crate::sign::{self, Sign};
use tables::kind;
use tables::row::{Row, UnaryKind};

pub fn is_not(row: Row) -> bool
    ensures answer { result ≡ is_not row }
{
    matches!(row, Row::Unary(UnaryKind::Not, _))
}

// The sign under which a row takes its operands: `not` turns it.
pub fn operand_sign(row: Row, sign: Sign) -> Sign
    ensures answer { result ≡ operand_sign row sign }
{
    if is_not(row) {
        sign::turned(sign)
    } else {
        sign
    }
}

// The row itself, or its dual.
pub fn signed_row(row: Row, sign: Sign) -> Row
    ensures answer { result ≡ signed sign row }
{
    match sign {
        Sign::Plain => row,
        Sign::Negated => kind::dual(row),
    }
}
