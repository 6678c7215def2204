// The lanes of all rows of a normal form over a recording: the one function that all above have rows' truth from.
ghost use Rattle.meaning.specs.Covers.{CoversForm};
ghost use Rattle.normal_form.specs.Form.{InNormalForm};
ghost use Rattle.take_file.specs.Valid.{InRange};
ghost use Rattle.lanes.specs.Truth.{Filled};

use tables::row::NormalForm;
use tables::trace::{Ending, Lane, Trace};

// A lane for each row: lane k is that of row k + 1.
#[derive(Clone, Copy)]
pub struct Truth {
    pub lanes: [Lane; 128],
}

// An open take is filled row by row, all cycles at once; a looped one cycle by cycle, all rows at each.
pub fn fill(form: NormalForm, trace: Trace) -> Truth
    requires { InNormalForm form × InRange trace × CoversForm form trace }
    ensures filled { Filled form trace result.lanes }
{
    let ending = trace.ending;
    let lanes = match ending {
        Ending::Open => crate::open::fill_open(form, trace),
        Ending::Loop(start) => rounds::looped::fill_looped(form, trace, start).lanes,
    };
    Truth { lanes }
}
