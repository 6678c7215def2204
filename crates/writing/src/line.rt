// Lines of a key and a value, and the three lines of a refusal.
ghost use Rattle.std.specs.Prelude.{[], ◌+◌, ◌≤◌, ◌<◌, length};
ghost use Rattle.text.specs.Written.{decimal, written_line};
ghost use Rattle.writing.specs.Lent.{Wrote, number_room};
ghost use Rattle.writing.specs.Refusal.{refusal_text};

use crate::put::{put, put_byte, put_number};
use tables::refusal::Refusal;

pub fn put_text_line(buf: &mut [u8], at: usize, key: &[u8], value: &[u8]) -> usize
    requires { at + length key.now + length value.now + 2 ≤ length buf.old }
    ensures text { Wrote buf.old at (written_line key.now value.now []) buf.new result }
{
    let a = put(&mut *buf, at, key);
    let b = put_byte(&mut *buf, a, b'=');
    let c = put(&mut *buf, b, value);
    put_byte(buf, c, b'\n')
}

// A value of at most five digits.
pub fn put_number_line(buf: &mut [u8], at: usize, key: &[u8], n: u32) -> usize
    requires { (at + length key.now + 2 + number_room n ≤ length buf.old) × (n < 100000) }
    ensures text { Wrote buf.old at (written_line key.now (decimal n) []) buf.new result }
    ensures room { result ≤ at + length key.now + 2 + number_room n }
{
    let a = put(&mut *buf, at, key);
    let b = put_byte(&mut *buf, a, b'=');
    let c = put_number(&mut *buf, b, n);
    put_byte(buf, c, b'\n')
}

// A line of a file has at most five digits in its number, since the file has at most 65,536 bytes.
pub fn put_refusal(buf: &mut [u8], at: usize, refusal: Refusal) -> usize
    requires { (at + 32 ≤ length buf.old) × (refusal.line < 100000) }
    ensures text { Wrote buf.old at (refusal_text refusal) buf.new result }
    ensures room { result ≤ at + 32 }
{
    let reason = refusal.reason;
    let number = tables::refusal::reason_number(reason);
    let a = put_number_line(&mut *buf, at, b"refused", number as u32);
    let b = put_number_line(&mut *buf, a, b"file", refusal.file as u32);
    put_number_line(buf, b, b"line", refusal.line as u32)
}
