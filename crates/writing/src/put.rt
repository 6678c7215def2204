// Bytes, numbers and whole texts.
ghost use Rattle.std.specs.Prelude.{◌≡◌, [], ◌∷◌, ◌+◌, ◌≤◌, ◌<◌, length};
ghost use Rattle.tables.specs.Choice.{pick};
ghost use Rattle.text.specs.Written.{decimal};
ghost use Rattle.writing.specs.Lent.{Wrote, number_room};

// Puts a text into the buffer, and answers the place behind it.
pub fn put(buf: &mut [u8], at: usize, text: &[u8]) -> usize
    requires { at + length text.now ≤ length buf.old }
    ensures text { Wrote buf.old at text.now buf.new result }
{
    // Stays: by `copy_from_slice` the archive for C needs `memmove` from outside, which it did not before.
    for (i, byte) in text.iter().enumerate() {
        buf[at + i] = *byte;
    }
    at + text.len()
}

pub fn put_byte(buf: &mut [u8], at: usize, b: u8) -> usize
    requires { at + 1 ≤ length buf.old }
    ensures text { Wrote buf.old at (b ∷ []) buf.new result }
{
    buf[at] = b;
    at + 1
}

fn digit(n: u32) -> u8
    requires { n < 10 }
    ensures answer { result ≡ 48 + n }
{
    48 + n as u8
}

// A digit 0 or 1.
pub fn put_bit(buf: &mut [u8], at: usize, on: bool) -> usize
    requires { at + 1 ≤ length buf.old }
    ensures text { Wrote buf.old at (pick on 49 48 ∷ []) buf.new result }
{
    put_byte(buf, at, if on { b'1' } else { b'0' })
}

// A number of at most three digits.
fn put_short_number(buf: &mut [u8], at: usize, n: u32) -> usize
    requires { (at + 3 ≤ length buf.old) × (n < 1000) }
    ensures text { Wrote buf.old at (decimal n) buf.new result }
    ensures room { result ≤ at + 3 }
{
    if n < 10 {
        return put_byte(buf, at, digit(n));
    }
    let tens = n / 10;
    if tens < 10 {
        let b = put_byte(&mut *buf, at, digit(tens));
        return put_byte(buf, b, digit(n % 10));
    }
    let b = put_byte(&mut *buf, at, digit(tens / 10));
    let c = put_byte(&mut *buf, b, digit(tens % 10));
    put_byte(buf, c, digit(n % 10))
}

// A number of at most five digits: the lines of a file go up to 65,536, which 16 bits do not hold.
pub fn put_number(buf: &mut [u8], at: usize, n: u32) -> usize
    requires { (at + number_room n ≤ length buf.old) × (n < 100000) }
    ensures text { Wrote buf.old at (decimal n) buf.new result }
    ensures room { result ≤ at + number_room n }
{
    if n < 1000 {
        return put_short_number(buf, at, n);
    }
    let hundreds = put_short_number(&mut *buf, at, n / 100);
    let tens = put_byte(&mut *buf, hundreds, digit(n / 10 % 10));
    put_byte(buf, tens, digit(n % 10))
}
