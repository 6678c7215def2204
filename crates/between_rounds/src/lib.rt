// Between two rounds: which rows are sure, and where the next round starts. No cycle is filled here.
#![tactic(auto)]

ghost use Rattle.std.specs.Prelude.{Bool, ◌≡◌, true, false, ℕ, suc, ◌<◌};
ghost use Rattle.meaning.specs.Rows.{Each};
ghost use Rattle.meaning.specs.Satisfaction.{table_of};
ghost use Rattle.meaning.specs.Pattern.{pattern_of};
ghost use Rattle.normal_form.specs.Form.{InNormalForm};
ghost use Rattle.cycle_rows.specs.Cells.{IsRowNumber, row_cell};
ghost use Rattle.between_rounds.specs.Between.{every_operand, handed, Handed, same_bit, same_in, stays, sure_in, Surveyed};

use cycle_rows::pattern::{Pattern, pattern_of};
use tables::row::{NormalForm, Row};

fn sure_at(sure: &[bool; 128], number: u8) -> bool
    requires { IsRowNumber number }
    ensures answer { result ≡ sure_in sure.now number }
{
    sure[number as usize - 1]
}

// Whether a row is at the loop's cycle what stood behind the last one.
fn same_at(behind: &[bool; 160], cells: &[bool; 160], number: u8) -> bool
    requires { IsRowNumber number }
    ensures answer { result ≡ same_bit (row_cell behind.now number) (row_cell cells.now number) }
{
    let at = 31 + number as usize;
    behind[at] == cells[at]
}

// Whether each operand of a row has what is asked.
fn every_operand<F: Fn(u8) -> bool>(row: Row, holds: F) -> bool
    requires { Each (λ a. F.pre holds a) row }
    ensures answer { (asked : ℕ → Bool) → Each (λ a. (on : Bool) → F.post holds a on → on ≡ asked a) row
        → result ≡ every_operand asked row }
{
    match row {
        Row::Constant(_) | Row::Signal(_, _) => true,
        Row::Unary(_, a) => holds(a),
        Row::Binary(_, a, b) => holds(a) & holds(b),
    }
}

fn operands_sure(row: Row, sure: &[bool; 128]) -> bool
    requires { Each IsRowNumber row }
    ensures answer { result ≡ every_operand (sure_in sure.now) row }
{
    every_operand(row, |a| sure_at(sure, a))
}

// Whether each operand is at the loop's cycle what stood behind the last one.
fn operands_same(row: Row, behind: &[bool; 160], cells: &[bool; 160]) -> bool
    requires { Each IsRowNumber row }
    ensures answer { result ≡ every_operand (same_in behind.now cells.now) row }
{
    every_operand(row, |a| same_at(behind, cells, a))
}

// Whether what a row reads behind the last cycle is what the round has left at the loop's.
fn row_stays(row: Row, number: u8, behind: &[bool; 160], cells: &[bool; 160]) -> bool
    requires { Each IsRowNumber row × IsRowNumber number }
    ensures answer { result ≡ stays (same_in behind.now cells.now) number row (pattern_of row) }
{
    match pattern_of(row) {
        Pattern::Now | Pattern::Connective(_) => true,
        Pattern::Next => operands_same(row, behind, cells),
        Pattern::Temporal(_, _) => same_at(behind, cells, number),
    }
}

// Which rows are sure behind a round, and whether all are. `behind` is what stood behind the last cycle, `cells` the loop's cycle.
pub fn survey(
    form: NormalForm,
    behind: &[bool; 160],
    cells: &[bool; 160],
    sure: &mut [bool; 128],
) -> bool
    requires { InNormalForm form }
    ensures surveyed { Surveyed (table_of form.places) form.rows (row_cell behind.now) (row_cell cells.now)
        (sure_in sure.new) }
    ensures all { result ≡ true → (k : ℕ) → k < form.rows → sure_in sure.new (suc k) ≡ true }
    ensures some { result ≡ false → (k : ℕ) × (k < form.rows) × (sure_in sure.new (suc k) ≡ false) }
{
    let mut all = true;
    for k in 0..form.rows as usize {
        let row = form.places[k].row;
        let on = operands_sure(row, &*sure) & row_stays(row, k as u8 + 1, behind, cells);
        sure[k] = on;
        all &= on;
    }
    all
}

// A row behind the last cycle of the next round: as it was at the loop's; but until and its like, where an operand is not sure, start
// from what holds if the goal is never met.
fn row_handed(row: Row, operands: bool, left: bool) -> bool
    ensures answer { result ≡ handed (pattern_of row) operands left }
{
    match pattern_of(row) {
        Pattern::Now | Pattern::Next | Pattern::Connective(_) => left,
        Pattern::Temporal(_, start) => if operands { left } else { start },
    }
}

// The next round's start, in place: the cells hold the loop's cycle, and then what stands behind the last.
pub fn restart(form: NormalForm, sure: &[bool; 128], cells: &mut [bool; 160])
    requires { InNormalForm form }
    ensures started { Handed (table_of form.places) form.rows (sure_in sure.now) (row_cell cells.old)
        (row_cell cells.new) }
{
    for k in 0..form.rows as usize {
        let row = form.places[k].row;
        let operands = operands_sure(row, sure);
        cells[32 + k] = row_handed(row, operands, cells[32 + k]);
    }
}
