// How many bytes a row takes in a rule file.
ghost use Rattle.std.specs.Prelude.{◌≡◌, ◌≤◌, length};
ghost use Rattle.text.specs.Written.{written_body};
ghost use Rattle.rule_row.specs.Written.{numbers_text, written_row};
ghost use Rattle.row_writer.specs.Normal.{rows_of};

use tables::kind;
use tables::row::{NormalForm, Row};
use writing::length::number_length;

// The numbers behind a row's word, each after a space.
fn numbers_length(row: Row) -> usize
    ensures length { (result ≡ length (numbers_text row)) × (result ≤ 12) }
{
    match row {
        Row::Constant(_) => 0,
        Row::Signal(_, a) | Row::Unary(_, a) => 1 + number_length(a as u32),
        Row::Binary(_, a, b) => 2 + number_length(a as u32) + number_length(b as u32),
    }
}

// The lines of all rows: each has the letter r, its number, an equals sign, the row and a line feed. The table of kinds is stored once
// for all of them.
#[tactic(auto, using(crate::proofs::Rows::length_short))]
pub fn rows_length(form: NormalForm) -> usize
    requires { form.rows ≤ 128 }
    ensures length { (result ≡ length (written_body 114 written_row 1 (rows_of form))) × (result ≤ 3584) }
{
    let kinds = kind::table();
    let mut n = 0;
    for (k, place) in form.places[..form.rows as usize].iter().enumerate() {
        let row = place.row;
        let kind = kinds[kind::place_of(row)];
        n += 3 + number_length(k as u32 + 1) + kind.length + numbers_length(row);
    }
    n
}
