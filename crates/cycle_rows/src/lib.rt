// All rows of a normal form at one cycle of a lasso, from the cycle's signals and the rows one cycle on. The rows are prepared once as
// steps; then a row costs the cells of its operands, its own, and one look into a table.
#![tactic(auto)]

ghost use Rattle.tables.specs.declared.row.NormalForm.{NormalForm};
ghost use Rattle.cycle_rows.specs.Cells.{FilledIn};
ghost use Rattle.cycle_rows.specs.Steps.{Prepared};

pub mod pattern;
pub mod prepare;
mod step_bit;

use prepare::Steps;

// The rows of the cycle, in place: the cells hold its signals and the rows one cycle on, and then its rows. Beside the steps nothing
// else is given, and no branch depends on a row.
pub fn fill_cycle(steps: &Steps, cells: &mut [bool; 160])
    requires { (g : NormalForm) × Prepared g steps.now }
    ensures filled { (g : NormalForm) → Prepared g steps.now → FilledIn g cells.old cells.new }
{
    for step in &steps.list[..steps.rows] {
        let own = step.own as usize;
        let a = cells[step.first as usize] as usize;
        let b = cells[step.second as usize] as usize;
        let x = cells[own] as usize;
        cells[own] = (step.table >> (a + 2 * b + 4 * x)) % 2 == 1;
    }
}
