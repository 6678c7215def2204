// The words that a round records.
ghost use Rattle.std.specs.Prelude.{◌≡◌, ℕ, suc, ◌+◌, ◌*◌, ◌%◌, ◌≤◌, ◌<◌};
ghost use Rattle.tables.specs.Choice.{pick};
ghost use Rattle.cycle_rows.specs.Cells.{row_cell};
ghost use Rattle.lanes.specs.Truth.{lane_in, Shows};
ghost use Rattle.rounds.specs.Rounds.{Columns};
ghost use Rattle.rounds.specs.Recorded.{RecordedFrom};

use tables::trace::Lane;

// A word with a bit more, below the others: the highest goes.
fn with_lowest(word: u64, on: bool) -> u64
    ensures word { result ≡ pick on 1 0 + 2 * (word % 9223372036854775808) }
{
    (on as u64) + 2 * (word % 0x8000_0000_0000_0000)
}

// One cycle more of all rows, below those recorded.
pub fn record(rows: usize, cells: &[bool; 160], cycle: usize, words: &mut [u64; 512])
    requires { (rows ≤ 128) × (cycle < 256) }
    ensures recorded { (n : ℕ) (columns : Columns) → cycle < n → RecordedFrom rows n (suc cycle) words.old columns
        → ((k : ℕ) → k < rows → columns cycle (suc k) ≡ row_cell cells.now (suc k))
        → RecordedFrom rows n cycle words.new columns }
{
    let first = cycle / 64 * 128;
    for k in 0..rows {
        words[first + k] = with_lowest(words[first + k], cells[32 + k]);
    }
}

// The lanes of words that have all cycles.
pub fn lanes_of(words: [u64; 512]) -> [Lane; 128]
    ensures lanes { (rows n : ℕ) (columns : Columns) → rows ≤ 128 → RecordedFrom rows n 0 words columns
        → (k : ℕ) → k < rows → Shows n (lane_in result k) (λ c. columns c (suc k)) }
{
    let mut lanes = [Lane { words: [0; 4] }; 128];
    for (k, lane) in lanes.iter_mut().enumerate() {
        lane.words = [words[k], words[128 + k], words[256 + k], words[384 + k]];
    }
    lanes
}
