// Lines of circuit files into lent buffers: numbers with single spaces between them, and the header.
#![tactic(auto)]

ghost use Rattle.std.specs.Prelude.{[], ◌∷◌, ◌++◌, ◌+◌, ◌*◌, ◌≤◌, ◌<◌, length};
ghost use Rattle.std.specs.List.{All};
ghost use Rattle.tables.specs.Bytes.{bytes};
ghost use Rattle.text.specs.Written.{decimal};
ghost use Rattle.writing.specs.Lent.{Wrote};
ghost use Rattle.circuit_file.specs.Written.{written_lines};

use circuit_line::section::Header;
use writing::put::{put, put_byte, put_number};

// A number and the byte behind it: six bytes at most.
fn put_part(buf: &mut [u8], at: usize, n: u32, behind: u8) -> usize
    requires { (at + 6 ≤ length buf.old) × (n < 100000) }
    ensures text { Wrote buf.old at (decimal n ++ (behind ∷ [])) buf.new result }
    ensures room { result ≤ at + 6 }
{
    let i = put_number(buf, at, n);
    put_byte(buf, i, behind)
}

// One line of numbers.
#[inline(always)]
pub fn put_numbers(buf: &mut [u8], at: usize, numbers: &[u32]) -> usize
    requires { (0 < length numbers.now) × (at + 6 * length numbers.now ≤ length buf.old) × All (λ n. n < 100000) numbers.now }
    ensures text { Wrote buf.old at (written_lines (numbers.now ∷ [])) buf.new result }
    ensures room { result ≤ at + 6 * length numbers.now }
{
    let Some((last, front)) = numbers.split_last() else {
        unreachable!()
    };
    let mut end = at;
    for n in front {
        end = put_part(buf, end, *n, b' ');
    }
    put_part(buf, end, *last, b'\n')
}

// `aag M I L O A` at the buffer's start.
pub fn put_header(buf: &mut [u8], header: Header) -> usize
    requires { (34 ≤ length buf.old) × (header.maximum < 100000) × (header.inputs < 100000) × (header.latches < 100000)
        × (header.outputs < 100000) × (header.gates < 100000) }
    ensures text { Wrote buf.old 0
        (bytes "aag " ++ written_lines ((header.maximum ∷ header.inputs ∷ header.latches ∷ header.outputs ∷ header.gates ∷ []) ∷ []))
        buf.new result }
    ensures room { result ≤ 34 }
{
    let numbers = [
        header.maximum as u32,
        header.inputs as u32,
        header.latches as u32,
        header.outputs as u32,
        header.gates as u32,
    ];
    let a = put(buf, 0, b"aag ");
    put_numbers(buf, a, &numbers)
}
