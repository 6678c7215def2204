// The file of a normal form, and the lines before the rows that every rule file has.
ghost use Rattle.std.specs.Prelude.{[], ◌≤◌, length};
ghost use Rattle.rule_file.specs.Written.{rule_text};
ghost use Rattle.writing.specs.Lent.{Wrote};
ghost use Rattle.row_writer.specs.Normal.{written_normal};

use crate::row::put_rows;
use tables::row::NormalForm;
use writing::put::{put, put_byte, put_number};

// The three lines before the rows of a rule file, at the buffer's start.
pub fn put_counts(buf: &mut [u8], signals: u8, rows: u8) -> usize
    requires { 30 ≤ length buf.old }
    ensures text { Wrote buf.old 0 (rule_text signals rows []) buf.new result }
    ensures room { result ≤ 30 }
{
    let a = put(&mut *buf, 0, b"format=1\nsignals=");
    let b = put_number(&mut *buf, a, signals as u32);
    let c = put(&mut *buf, b, b"\nrows=");
    let d = put_number(&mut *buf, c, rows as u32);
    put_byte(buf, d, b'\n')
}

// The whole file, at the buffer's start.
pub fn put_normal(buf: &mut [u8], form: NormalForm) -> usize
    requires { (form.rows ≤ 128) × (2846 ≤ length buf.old) }
    ensures text { Wrote buf.old 0 (written_normal form) buf.new result }
{
    let a = put_counts(&mut *buf, form.signals, form.rows);
    put_rows(buf, a, 1, &form.places[..form.rows as usize])
}
