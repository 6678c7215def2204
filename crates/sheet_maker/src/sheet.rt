// The text of a sheet file. Its length is known beforehand, so it is written in place.
ghost use Rattle.std.specs.Prelude.{◌≡◌, [], ◌∷◌, ◌+◌, ◌≤◌, length};
ghost use Rattle.tables.specs.Bit.{bit_at};
ghost use Rattle.tables.specs.Place.{tabulate};
ghost use Rattle.text.specs.Written.{decimal, digits_text, written_body, written_line};
ghost use Rattle.sheet_file.specs.Written.{rows_of, written_sheet};
ghost use Rattle.writing.specs.Lent.{Wrote};
ghost use Rattle.sheet_maker.specs.Length.{rows_length, sheet_length};

use tables::trace::{Activation, Lane};
use writing::length::number_length;
use writing::line::put_number_line;
use writing::put::{put_bit, put_byte, put_number};

// How many bytes the file of so many rows and cycles has.
pub fn sheet_length(rows: u8, cycles: u16) -> usize
    requires { (rows ≤ 128) × (cycles ≤ 256) }
    ensures length { result ≡ sheet_length rows cycles }
{
    let mut n = 23 + number_length(rows as u32) + number_length(cycles as u32);
    for k in 0..rows as u32 {
        n += number_length(k + 1) + cycles as usize + 3;
    }
    n
}

// One digit for each cycle.
fn put_digits(buf: &mut [u8], at: usize, lane: Lane, cycles: u16) -> usize
    requires { (cycles ≤ 256) × (at + cycles ≤ length buf.old) }
    ensures text { Wrote buf.old at (digits_text (tabulate cycles (bit_at lane))) buf.new result }
    ensures room { result ≤ at + cycles }
{
    let mut end = at;
    for c in 0..cycles as usize {
        end = put_bit(&mut *buf, end, lanes::lane::bit(lane, c));
    }
    end
}

// The line of row `number`.
fn put_row(buf: &mut [u8], at: usize, number: u8, lane: Lane, cycles: u16) -> usize
    requires { (cycles ≤ 256) × (at + (length (decimal number) + cycles + 3) ≤ length buf.old) }
    ensures text { Wrote buf.old at (written_line (122 ∷ decimal number) (digits_text (tabulate cycles (bit_at lane))) [])
        buf.new result }
    ensures place { result ≡ at + (length (decimal number) + cycles + 3) }
{
    let a = put_byte(&mut *buf, at, b'z');
    let b = put_number(&mut *buf, a, number as u32);
    let c = put_byte(&mut *buf, b, b'=');
    let d = put_digits(&mut *buf, c, lane, cycles);
    put_byte(buf, d, b'\n')
}

// The lines of all rows.
fn put_rows(buf: &mut [u8], at: usize, sheet: Activation) -> usize
    requires { (sheet.rows ≤ 128) × (sheet.cycles ≤ 256) × (at + rows_length sheet.cycles sheet.rows ≤ length buf.old) }
    ensures text { Wrote buf.old at (written_body 122 digits_text 1 (rows_of sheet)) buf.new result }
{
    let mut end = at;
    for (k, lane) in sheet.lanes[..sheet.rows as usize].iter().enumerate() {
        end = put_row(&mut *buf, end, k as u8 + 1, *lane, sheet.cycles);
    }
    end
}

// The whole file, at the buffer's start.
pub fn put_sheet(buf: &mut [u8], sheet: Activation) -> usize
    requires le_rows { (1 ≤ sheet.rows) × (sheet.rows ≤ 128) × (sheet.cycles ≤ 256) }
    requires cycles_in_bounds { sheet_length sheet.rows sheet.cycles ≤ length buf.old }
    ensures text { Wrote buf.old 0 (written_sheet sheet) buf.new result }
{
    let a = put_number_line(&mut *buf, 0, b"format", 1);
    let b = put_number_line(&mut *buf, a, b"rows", sheet.rows as u32);
    let c = put_number_line(&mut *buf, b, b"cycles", sheet.cycles as u32);
    put_rows(buf, c, sheet)
}
