// A recording that grows cycle by cycle: the words of its signals, and the lanes from them.
#![tactic(auto)]

ghost use Rattle.std.specs.Prelude.{Bool, List, [], ◌∷◌, ◌++◌, ◌≡◌, ◌≤◌, ◌<◌, eqb, length};
ghost use Rattle.tables.specs.Choice.{pick};
ghost use Rattle.text.specs.Digits.{digits_in};
ghost use Rattle.recording.specs.Recording.{Recorded, lanes_from, words_of};

use tables::trace::{Lane, power_of_two};

pub mod whole;

// The words of no cycle.
pub fn empty() -> [u64; 128]
    ensures none { result ≡ words_of [] }
{
    [0; 128]
}

// What a digit adds to a word: the bit of its cycle where it is 1.
fn digit_bit(digit: u8, bit: u64) -> u64
    ensures answer { result ≡ pick (eqb digit 49) bit 0 }
{
    if digit == b'1' { bit } else { 0 }
}

// One cycle more, behind so many: where a signal's digit is 1, its word gets the bit. The words that one cycle changes lie side by
// side. They are lent, since a copy for each cycle costs more than its digits, and no branch depends on a digit.
pub fn put_cycle(words: &mut [u64; 128], digits: &[u8], cycle: usize)
    requires { Recorded words.old cycle × (cycle < 256) × (length digits.now ≤ 32) }
    ensures appended { (cs : List (List Bool)) → length cs ≡ cycle → words.old ≡ words_of cs
        → words.new ≡ words_of (cs ++ (digits_in digits.now ∷ [])) }
{
    let first = cycle / 64 * 32;
    let bit = power_of_two(cycle % 64);
    for (s, digit) in digits.iter().enumerate() {
        words[first + s] += digit_bit(*digit, bit);
    }
}

// The lanes of the signals, from their words.
pub fn lanes_from(words: [u64; 128]) -> [Lane; 32]
    ensures lanes { result ≡ lanes_from words }
{
    let mut lanes = [Lane { words: [0; 4] }; 32];
    for (s, lane) in lanes.iter_mut().enumerate() {
        *lane = Lane {
            words: [words[s], words[32 + s], words[64 + s], words[96 + s]],
        };
    }
    lanes
}
