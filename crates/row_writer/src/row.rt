// The lines of rows.
ghost use Rattle.std.specs.Prelude.{[], ◌∷◌, ◌+◌, ◌*◌, ◌≤◌, ◌<◌, length, map};
ghost use Rattle.tables.specs.Kind.{kind_at, kind_count, word_of};
ghost use Rattle.text.specs.Written.{decimal, written_body, written_line};
ghost use Rattle.rule_row.specs.Written.{written_row};
ghost use Rattle.writing.specs.Lent.{Wrote};

use tables::kind;
use tables::row::{Row, RowPlace};
use writing::put::{put, put_byte, put_number};

// The word of the kind at a place of the table.
fn put_word(buf: &mut [u8], at: usize, place: usize) -> usize
    requires { (place < kind_count) × (at + 8 ≤ length buf.old) }
    ensures word { Wrote buf.old at (word_of (kind_at place)) buf.new result }
    ensures most { result ≤ at + 8 }
{
    let kind = kind::kind_at(place);
    let bytes = kind.word;
    put(buf, at, &bytes[..kind.length])
}

// A space and a number.
fn put_operand(buf: &mut [u8], at: usize, a: u8) -> usize
    requires { at + 4 ≤ length buf.old }
    ensures text { Wrote buf.old at (32 ∷ decimal a) buf.new result }
    ensures room { result ≤ at + 4 }
{
    let i = put_byte(&mut *buf, at, b' ');
    put_number(buf, i, a as u32)
}

fn put_row(buf: &mut [u8], at: usize, row: Row) -> usize
    requires { at + 16 ≤ length buf.old }
    ensures text { Wrote buf.old at (written_row row) buf.new result }
    ensures room { result ≤ at + 16 }
{
    let i = put_word(&mut *buf, at, kind::place_of(row));
    match row {
        Row::Constant(_) => i,
        Row::Signal(_, s) => put_operand(buf, i, s),
        Row::Unary(_, a) => put_operand(buf, i, a),
        Row::Binary(_, a, b) => {
            let j = put_operand(&mut *buf, i, a);
            put_operand(buf, j, b)
        }
    }
}

// The line of row `number`.
pub fn put_row_line(buf: &mut [u8], at: usize, number: u8, row: Row) -> usize
    requires { at + 22 ≤ length buf.old }
    ensures text { Wrote buf.old at (written_line (114 ∷ decimal number) (written_row row) []) buf.new result }
    ensures room { result ≤ at + 22 }
{
    let a = put_byte(&mut *buf, at, b'r');
    let b = put_number(&mut *buf, a, number as u32);
    let c = put_byte(&mut *buf, b, b'=');
    let d = put_row(&mut *buf, c, row);
    put_byte(buf, d, b'\n')
}

// The lines of rows that are numbered from `first` on.
pub fn put_rows(buf: &mut [u8], at: usize, first: u8, places: &[RowPlace]) -> usize
    requires { (first + length places.now ≤ 256) × (at + 22 * length places.now ≤ length buf.old) }
    ensures text { Wrote buf.old at (written_body 114 written_row first (map (λ p. p.row) places.now)) buf.new result }
{
    let mut end = at;
    for (k, place) in places.iter().enumerate() {
        end = put_row_line(&mut *buf, end, first + k as u8, place.row);
    }
    end
}
