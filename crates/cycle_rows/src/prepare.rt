// The steps of a normal form: each row with the cells that it reads, and its table.
ghost use Rattle.std.specs.Prelude.{Bool, ◌≡◌, ◌≤◌};
ghost use Rattle.meaning.specs.Pattern.{left, pattern_of, right};
ghost use Rattle.normal_form.specs.Form.{InNormalForm};
ghost use Rattle.cycle_rows.specs.Steps.{case_in, case_of, cell_of, InCells, is_next, Prepared, step_bit, StepFor};

use crate::pattern::{Pattern, pattern_of};
use crate::step_bit::step_bit;
use tables::row::{NormalForm, Row};

// A step: the cell of its row, those of the row's operands, and the row's table.
#[derive(Clone, Copy)]
pub struct Step {
    pub own: u8,
    pub first: u8,
    pub second: u8,
    pub table: u8,
}

// The first `rows` of the list are the steps, in their order.
#[derive(Clone, Copy)]
pub struct Steps {
    pub rows: usize,
    pub list: [Step; 128],
}

fn first_cell(row: Row) -> u8
    requires { InCells row }
    ensures cell { result ≡ cell_of (left row) }
{
    match row {
        Row::Constant(_) | Row::Signal(_, _) | Row::Unary(_, _) => 0,
        Row::Binary(_, a, _) => 31 + a,
    }
}

fn second_cell(row: Row) -> u8
    requires { InCells row }
    ensures cell { result ≡ cell_of (right row) }
{
    match row {
        Row::Constant(_) => 0,
        Row::Signal(_, s) => s - 1,
        Row::Unary(_, a) | Row::Binary(_, _, a) => 31 + a,
    }
}

// The table of a row: bit m is the row in case m. One byte, so that a step waits for a shift and not for a look into memory.
fn table(row: Row) -> u8
    ensures cases { (a b x : Bool) → case_in result (case_of a b x) ≡ step_bit row a b x }
{
    let mut bits = 0u8;
    for m in (0..8u8).rev() {
        let on = step_bit(row, m % 2 == 1, m / 2 % 2 == 1, m / 4 == 1);
        bits = on as u8 + 2 * (bits % 128);
    }
    bits
}

// The step of row `number`, which is `row`.
fn step_for(number: u8, row: Row) -> Step
    requires { (number ≤ 128) × InCells row }
    ensures step { StepFor result number row }
{
    Step {
        own: 31 + number,
        first: first_cell(row),
        second: second_cell(row),
        table: table(row),
    }
}

fn is_next(row: Row) -> bool
    ensures answer { result ≡ is_next (pattern_of row) }
{
    matches!(pattern_of(row), Pattern::Next)
}

// In place, `next` has to read its operand before that is filled, so these rows come first, from the last; then all others in order.
pub fn prepare(form: NormalForm) -> Steps
    requires { InNormalForm form }
    ensures steps { Prepared form result }
{
    let rows = form.rows as usize;
    let mut list = [Step {
        own: 0,
        first: 0,
        second: 0,
        table: 0,
    }; 128];
    let mut i = 0;
    for k in (0..rows).rev() {
        let row = form.places[k].row;
        if is_next(row) {
            list[i] = step_for(k as u8 + 1, row);
            i += 1;
        }
    }
    for k in 0..rows {
        let row = form.places[k].row;
        if !is_next(row) {
            list[i] = step_for(k as u8 + 1, row);
            i += 1;
        }
    }
    Steps { rows, list }
}
