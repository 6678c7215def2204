// One word: 64 cycles, the earliest lowest.
ghost use Rattle.std.specs.Prelude.{◌≡◌, Bool, false, ℕ, suc, ◌+◌, ◌-◌, ◌/◌, ◌%◌, ◌^◌, ◌<◌};
ghost use Rattle.std.specs.Int.Bits.{bit_and, bit_or};
ghost use Rattle.tables.specs.Choice.{pick};
ghost use Rattle.tables.specs.Bit.{word_from};
ghost use Rattle.meaning.specs.Approximant.{approximant};
ghost use Rattle.lanes.specs.Word.{Ends};

// A word's last cycle alone.
const LAST: u64 = 1 << 63;

// For each cycle: `keep` holds for some number of cycles from there on, `goal` is met within that number with keep before it.
#[derive(Clone, Copy)]
pub struct Stretch {
    pub keep: u64,
    pub goal: u64,
}

// Stretches twice as long, from those of s cycles: the goal in the first half, or keep through it and the goal in the second.
fn twice(x: Stretch, s: u32) -> Stretch
    requires { s < 64 }
    ensures answer { (result.keep ≡ bit_and x.keep (x.keep / 2 ^ s))
        × (result.goal ≡ bit_or x.goal (bit_and x.keep (x.goal / 2 ^ s))) }
{
    Stretch {
        keep: x.keep & (x.keep >> s),
        goal: x.goal | (x.keep & (x.goal >> s)),
    }
}

// At each cycle: the goal is met in this word, with keep up to it. Six doublings instead of 64 steps.
fn carry_back(keep: u64, goal: u64) -> u64
    ensures word { (b : ℕ) (k g : ℕ → Bool) → Ends (b + 64) k → Ends (b + 64) g → keep ≡ word_from 64 b k → goal ≡ word_from 64 b g
        → result ≡ word_from 64 b (approximant k g false 64) }
{
    let mut stretch = Stretch { keep, goal };
    for k in 0..6u32 {
        stretch = twice(stretch, 1 << k);
    }
    stretch.goal
}

// The same over several words: `later` is the word behind this one, whose first bit says what holds there.
pub fn carry_from(keep: u64, goal: u64, later: u64) -> u64
    ensures word { (b : ℕ) (k g : ℕ → Bool) (x : Bool) → keep ≡ word_from 64 b k → goal ≡ word_from 64 b g → later % 2 ≡ pick x 1 0
        → result ≡ word_from 64 b (λ i. approximant k g x (b + 64 - i) i) }
{
    if later % 2 == 1 {
        carry_back(keep, goal | (keep & LAST))
    } else {
        carry_back(keep, goal)
    }
}

// What holds one cycle later; the later word's first bit comes in at the top.
pub fn next_from(word: u64, later: u64) -> u64
    ensures word { (b : ℕ) (f : ℕ → Bool) → word ≡ word_from 64 b f → later % 2 ≡ pick (f (b + 64)) 1 0
        → result ≡ word_from 64 b (λ i. f (suc i)) }
{
    if later % 2 == 1 {
        word / 2 + LAST
    } else {
        word / 2
    }
}
