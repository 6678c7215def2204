// Whether words are a whole recording: the words of so many cycles of so many signals, and nothing else.
ghost use Rattle.std.specs.Prelude.{true, ◌↔◌, ◌≡◌, ℕ, ◌-◌, ◌^◌, ◌≤◌, ◌<◌, get_or};
ghost use Rattle.recording.specs.Recording.{RecordedOf};

use tables::trace::power_of_two;

// The bits that some of these words have: it is below a power of two where each of them is.
fn union(words: &[u64; 128], from: usize, end: usize) -> u64
    requires { (from ≤ end) × (end ≤ 128) }
    ensures below { (n : ℕ) → (result < 2 ^ n) ↔ ((i : ℕ) → from ≤ i → i < end → get_or words.now i 0 < 2 ^ n) }
{
    words[from..end].iter().fold(0, |bits, word| bits | word)
}

// Whether a word has no bit behind so many cycles.
fn fits(word: u64, cycles: usize) -> bool
    ensures answer { (result ≡ true) ↔ (word < 2 ^ cycles) }
{
    64 <= cycles || word < power_of_two(cycles)
}

// Whether the words are those of so many cycles of so many signals: nothing stands behind the last cycle or the last signal. The 32
// words of 64 cycles are taken together, since this is asked at each cycle of a user's recording.
pub fn is_recording(words: [u64; 128], signals: usize, cycles: usize) -> bool
    requires { (signals ≤ 32) × (cycles ≤ 256) }
    ensures exactly { (result ≡ true) ↔ RecordedOf words signals cycles }
{
    for block in 0..4 {
        let from = 32 * block;
        let left = cycles.saturating_sub(64 * block);
        if !fits(union(&words, from, from + 32), left) {
            return false;
        }
        if union(&words, from + signals, from + 32) != 0 {
            return false;
        }
    }
    true
}
