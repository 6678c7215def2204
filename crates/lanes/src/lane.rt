// Lanes: up to 256 cycles in four words.
ghost use Rattle.std.specs.Prelude.{◌≡◌, Bool, false, not, ◌&&◌, ◌||◌, ℕ, suc, ◌-◌, ◌≤◌, ◌<◌, ltb, eqb};
ghost use Rattle.tables.specs.Bit.{bit_at, lane_of};
ghost use Rattle.meaning.specs.Approximant.{approximant};
ghost use Rattle.lanes.specs.Word.{WordByWord};

use crate::word;
use std::array;
use tables::trace::Lane;

pub fn bit(lane: Lane, cycle: usize) -> bool
    requires { cycle < 256 }
    ensures answer { result ≡ bit_at lane cycle }
{
    let words = lane.words;
    (words[cycle / 64] >> (cycle % 64)) % 2 == 1
}

// The operation on each two words, 64 cycles at once.
fn word_by_word<F: Fn(u64, u64) -> u64>(a: Lane, b: Lane, operation: F) -> Lane
    requires { F.IsAlwaysCallable operation }
    ensures words { WordByWord (F.post operation) a b result }
{
    let p = a.words;
    let q = b.words;
    Lane {
        words: array::from_fn(|i| operation(p[i], q[i])),
    }
}

// The first lane may be any: only its bits at the second one's cycles count.
pub fn both(a: Lane, b: Lane) -> Lane
    ensures lane { (g : ℕ → Bool) → b ≡ lane_of g → result ≡ lane_of (λ i. bit_at a i && g i) }
{
    word_by_word(a, b, |x, y| x & y)
}

pub fn either(a: Lane, b: Lane) -> Lane
    ensures lane { (f g : ℕ → Bool) → a ≡ lane_of f → b ≡ lane_of g → result ≡ lane_of (λ i. f i || g i) }
{
    word_by_word(a, b, |x, y| x | y)
}

// The first and not the second.
pub fn without(a: Lane, b: Lane) -> Lane
    ensures lane { (f g : ℕ → Bool) → a ≡ lane_of f → b ≡ lane_of g → result ≡ lane_of (λ i. f i && not (g i)) }
{
    word_by_word(a, b, |x, y| x & !y)
}

// At each cycle: the goal is met there or later, with keep up to it.
pub fn carry(keep: Lane, goal: Lane) -> Lane
    ensures lane { (k g : ℕ → Bool) → keep ≡ lane_of k → goal ≡ lane_of g → result ≡ lane_of (λ i. approximant k g false (256 - i) i) }
{
    // Stays: a loop over the four words was tried, and missed the speed of this form: rows of an open take took 1.7 times as long.
    let k = keep.words;
    let g = goal.words;
    let d = word::carry_from(k[3], g[3], 0);
    let c = word::carry_from(k[2], g[2], d);
    let b = word::carry_from(k[1], g[1], c);
    let a = word::carry_from(k[0], g[0], b);
    Lane {
        words: [a, b, c, d],
    }
}

// What holds one cycle later, and nothing behind the last.
pub fn next(lane: Lane) -> Lane
    ensures lane { (f : ℕ → Bool) → f 256 ≡ false → lane ≡ lane_of f → result ≡ lane_of (λ i. f (suc i)) }
{
    let mut words = [0; 4];
    let mut behind = 0;
    for i in (0..4).rev() {
        words[i] = word::next_from(lane.words[i], behind);
        behind = lane.words[i];
    }
    Lane { words }
}

// No cycle.
pub fn none() -> Lane
    ensures answer { result ≡ lane_of (λ i. false) }
{
    Lane { words: [0; 4] }
}

// One cycle alone.
fn single(cycle: usize) -> Lane
    requires { cycle < 256 }
    ensures answer { result ≡ lane_of (λ i. eqb i cycle) }
{
    tables::trace::with_bit(none(), cycle)
}

// The last of so many cycles alone.
fn last(cycles: usize) -> Lane
    requires { (1 ≤ cycles) × (cycles ≤ 256) }
    ensures answer { result ≡ lane_of (λ i. eqb (suc i) cycles) }
{
    single(cycles - 1)
}

// So many cycles, all of them: those from which the last is still to come.
pub fn all(cycles: usize) -> Lane
    requires { (1 ≤ cycles) × (cycles ≤ 256) }
    ensures answer { result ≡ lane_of (λ i. ltb i cycles) }
{
    let every = Lane {
        words: [u64::MAX; 4],
    };
    carry(every, last(cycles))
}
