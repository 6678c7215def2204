// The signals of a recording by cycle, so that a round finds those of one cycle side by side.
ghost use Rattle.std.specs.Prelude.{◌≡◌, false, ℕ, ◌+◌, ◌*◌, ◌≤◌, ◌<◌, get_or};
ghost use Rattle.tables.specs.Bit.{bit_at};
ghost use Rattle.rounds.specs.Recorded.{SpreadTo};

use tables::trace::Lane;

// Signal s + 1, given by its lane.
fn spread_signal(lane: Lane, s: usize, cycles: usize, digits: &mut [bool; 8192])
    requires { (s < 32) × (cycles ≤ 256) }
    ensures spread { (c : ℕ) → c < cycles → get_or digits.new (32 * c + s) false ≡ bit_at lane c }
    ensures others { (u c : ℕ) → u < 32 → (u ≡ s → ⊥)
        → get_or digits.new (32 * c + u) false ≡ get_or digits.old (32 * c + u) false }
{
    for c in 0..cycles {
        digits[32 * c + s] = lanes::lane::bit(lane, c);
    }
}

// The first so many signals.
pub fn spread(lanes: [Lane; 32], signals: usize, cycles: usize, digits: &mut [bool; 8192])
    requires { (signals ≤ 32) × (cycles ≤ 256) }
    ensures spread { SpreadTo signals cycles lanes digits.new }
{
    for s in 0..signals {
        spread_signal(lanes[s], s, cycles, digits);
    }
}
