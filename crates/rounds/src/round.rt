// The cycles of a round, from the last down.
ghost use Rattle.std.specs.Prelude.{◌≡◌, false, ℕ, ◌+◌, ◌*◌, ◌≤◌, ◌<◌, get_or};
ghost use Rattle.tables.specs.declared.row.NormalForm.{NormalForm};
ghost use Rattle.cycle_rows.specs.Cycle.{CycleFrom};
ghost use Rattle.cycle_rows.specs.Cells.{row_cell};
ghost use Rattle.cycle_rows.specs.Steps.{Prepared};
ghost use Rattle.rounds.specs.Rounds.{Columns};
ghost use Rattle.rounds.specs.Recorded.{RecordedFrom, RoundBack, given_from};

use cycle_rows::prepare::Steps;

// The signals of a cycle into their cells.
fn put_signals(digits: &[bool; 8192], cycle: usize, cells: &mut [bool; 160])
    requires { cycle < 256 }
    ensures put { (s : ℕ) → s < 32 → get_or cells.new s false ≡ get_or digits.now (32 * cycle + s) false }
    ensures rows { (j : ℕ) → 32 ≤ j → get_or cells.new j false ≡ get_or cells.old j false }
{
    let at = 32 * cycle;
    cells[..32].copy_from_slice(&digits[at..at + 32]);
}

// One cycle: the rows one cycle on are in their cells, and then its own.
pub fn fill_at(steps: &Steps, digits: &[bool; 8192], cycle: usize, cells: &mut [bool; 160])
    requires { ((g : NormalForm) × Prepared g steps.now) × (cycle < 256) }
    ensures filled { (g : NormalForm) → Prepared g steps.now
        → CycleFrom g (given_from digits.now cycle) (row_cell cells.old) (row_cell cells.new) }
{
    put_signals(digits, cycle, cells);
    cycle_rows::fill_cycle(steps, cells);
}

// The cycles from the one before `to` down to `from`, each recorded.
pub fn go_back(
    steps: &Steps,
    digits: &[bool; 8192],
    from: usize,
    to: usize,
    cells: &mut [bool; 160],
    words: &mut [u64; 512],
)
    requires { ((g : NormalForm) × Prepared g steps.now) × (from ≤ to) × (to ≤ 256) }
    ensures gone { (g : NormalForm) → Prepared g steps.now
        → (n : ℕ) (later : Columns) → to ≤ n → later to ≡ row_cell cells.old
        → RecordedFrom g.rows n to words.old later
        → RoundBack g (given_from digits.now) n from to later (row_cell cells.new) words.new }
{
    for c in (from..to).rev() {
        fill_at(steps, digits, c, cells);
        crate::record::record(steps.rows, cells, c, words);
    }
}
