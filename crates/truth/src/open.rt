// The truth of all rows over an open take.
ghost use Rattle.std.specs.Prelude.{◌≡◌};
ghost use Rattle.tables.specs.declared.trace.Ending.TheVariants.{Open};
ghost use Rattle.normal_form.specs.Form.{InNormalForm};
ghost use Rattle.take_file.specs.Valid.{InRange};
ghost use Rattle.lanes.specs.Truth.{Filled};

use row_lanes::row;
use tables::row::{NormalForm, Row};
use tables::trace::{Lane, Trace};

// Operands are earlier rows, so one pass over the rows is enough; how a row is computed over all cycles at once is `row`'s. Each row
// costs a fixed number of operations on four words, whatever its operands.
pub fn fill_open(form: NormalForm, trace: Trace) -> [Lane; 128]
    requires { InNormalForm form × InRange trace × (trace.ending ≡ Open) }
    ensures filled { Filled form trace result }
{
    let all = lanes::lane::all(trace.cycles as usize);
    let signals = trace.lanes;
    let count = form.rows as usize;
    let mut rows = [Lane { words: [0; 4] }; 128];
    for k in 0..count {
        let row = form.places[k].row;
        rows[k] = match row {
            Row::Constant(kind) => row::constant(kind, all),
            Row::Signal(kind, s) => row::signal(kind, signals[s as usize - 1], all),
            Row::Unary(kind, a) => row::unary(kind, rows[a as usize - 1], all),
            Row::Binary(kind, a, b) => row::binary(
                kind,
                rows[a as usize - 1],
                rows[b as usize - 1],
            ),
        };
    }
    rows
}
