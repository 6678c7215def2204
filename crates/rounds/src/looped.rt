// The truth of all rows over a lasso. A cycle of the loop is filled in every round, one of the stem in the last alone.
ghost use Rattle.std.specs.Prelude.{◌≡◌};
ghost use Rattle.tables.specs.declared.trace.Ending.TheVariants.{Loop};
ghost use Rattle.meaning.specs.Covers.{CoversIn};
ghost use Rattle.normal_form.specs.Form.{InNormalForm};
ghost use Rattle.take_file.specs.Valid.{InRange};
ghost use Rattle.lanes.specs.Truth.{Filled};
ghost use Rattle.rounds.specs.Rounds.{ByCycle};

use tables::row::NormalForm;
use tables::trace::{Lane, Trace};

// A lane for each row: lane k is that of row k + 1. And how many rounds it took.
#[derive(Clone, Copy)]
pub struct Looped {
    pub lanes: [Lane; 128],
    pub rounds: u8,
}

pub fn fill_looped(form: NormalForm, trace: Trace, start: u16) -> Looped
    requires { InNormalForm form × InRange trace × (trace.ending ≡ Loop start) × CoversIn form trace (Loop start) }
    ensures filled { Filled form trace result.lanes }
    ensures rounds { ByCycle form trace start result.rounds result.lanes }
{
    let steps = cycle_rows::prepare::prepare(form);
    let last = trace.cycles as usize;
    let first = start as usize;
    let mut digits = [false; 8192];
    crate::spread::spread(trace.lanes, form.signals as usize, last, &mut digits);
    // Nothing is sure yet, so every row starts; from there the loop's cycle is filled once, which comes behind the last.
    let mut sure = [false; 128];
    let mut cells = [false; 160];
    between_rounds::restart(form, &sure, &mut cells);
    crate::round::fill_at(&steps, &digits, first, &mut cells);
    let mut rounds = 0;
    'rounds: loop {
        between_rounds::restart(form, &sure, &mut cells);
        let behind = cells;
        let mut words = [0; 512];
        crate::round::go_back(&steps, &digits, first, last, &mut cells, &mut words);
        rounds += 1;
        let done = between_rounds::survey(form, &behind, &cells, &mut sure);
        // Where all rows are sure, this round goes on through the stem.
        if done {
            crate::round::go_back(&steps, &digits, 0, first, &mut cells, &mut words);
            let lanes = crate::record::lanes_of(words);
            return Looped { lanes, rounds };
        }
    }
}
