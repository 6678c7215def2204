// A run as bytes that a caller in C keeps between calls, and back.
#![tactic(auto)]

ghost use Rattle.std.specs.Prelude.{true, ◌≡◌, ℕ, ◌+◌, ◌*◌, ◌≤◌, ◌<◌, ◌^◌, length, get_or};
ghost use Rattle.tables.specs.Kind.{kind_count};
ghost use Rattle.tables.specs.declared.run.Run.{Run};
ghost use Rattle.run_bytes.specs.Bytes.{Fits, byte_of, filled, row_byte, run_bytes, run_length, word_byte};

use tables::kind::{KIND_COUNT, first_number, place_of, second_number, table, with_numbers};
use tables::row::{ConstantKind, Formula, Row, RowPlace};
use tables::run::Run;

// How many bytes a run has.
pub const RUN_LENGTH: usize = 1220;

// The eight bytes of a word behind the bytes so far; side by side, so that the compiler makes one store of them.
fn put_word(bytes: &mut [u8; RUN_LENGTH], at: usize, word: u64)
    requires { at + 8 ≤ run_length }
    ensures more { (f : ℕ → ℕ) → ((j : ℕ) → j < 8 → f (at + j) ≡ word_byte word j)
        → bytes.old ≡ filled run_length 0 f at → bytes.new ≡ filled run_length 0 f (at + 8) }
{
    bytes[at] = (word % 256) as u8;
    bytes[at + 1] = (word / 256 % 256) as u8;
    bytes[at + 2] = (word / 65536 % 256) as u8;
    bytes[at + 3] = (word / 16777216 % 256) as u8;
    bytes[at + 4] = (word / 4294967296 % 256) as u8;
    bytes[at + 5] = (word / 1099511627776 % 256) as u8;
    bytes[at + 6] = (word / 281474976710656 % 256) as u8;
    bytes[at + 7] = (word / 72057594037927936 % 256) as u8;
}

// The bytes of the words; then those of the rows; then the last four.
fn put_words(bytes: &mut [u8; RUN_LENGTH], run: Run)
    ensures more { bytes.old ≡ filled run_length 0 (byte_of run) 0
        → bytes.new ≡ filled run_length 0 (byte_of run) 1024 }
{
    let mut i = 0;
    while i < 128 {
        put_word(bytes, 8 * i, run.words[i]);
        i += 1;
    }
}

// The three bytes of a row behind the bytes so far.
fn put_row(bytes: &mut [u8; RUN_LENGTH], at: usize, row: Row)
    requires { at + 3 ≤ run_length }
    ensures more { (f : ℕ → ℕ) → ((j : ℕ) → j < 3 → f (at + j) ≡ row_byte row j)
        → bytes.old ≡ filled run_length 0 f at → bytes.new ≡ filled run_length 0 f (at + 3) }
{
    bytes[at] = place_of(row) as u8;
    bytes[at + 1] = first_number(row);
    bytes[at + 2] = second_number(row);
}

fn put_rows(bytes: &mut [u8; RUN_LENGTH], run: Run)
    ensures more { bytes.old ≡ filled run_length 0 (byte_of run) 1024
        → bytes.new ≡ filled run_length 0 (byte_of run) 1216 }
{
    let places = run.formula.places;
    let mut k = 0;
    while k < 64 {
        let place = places[k];
        let row = place.row;
        put_row(bytes, 1024 + 3 * k, row);
        k += 1;
    }
}

fn put_tail(bytes: &mut [u8; RUN_LENGTH], run: Run)
    ensures more { bytes.old ≡ filled run_length 0 (byte_of run) 1216
        → bytes.new ≡ run_bytes run }
{
    bytes[1216] = run.formula.signals;
    bytes[1217] = run.formula.rows;
    bytes[1218] = (run.cycles % 256) as u8;
    bytes[1219] = (run.cycles / 256) as u8;
}

// The bytes of a run.
pub fn encode(run: Run) -> [u8; RUN_LENGTH]
    ensures bytes { result ≡ run_bytes run }
{
    let mut bytes = [0u8; RUN_LENGTH];
    put_words(&mut bytes, run);
    put_rows(&mut bytes, run);
    put_tail(&mut bytes, run);
    bytes
}

fn wide(byte: u8) -> u64
    ensures answer { (result ≡ byte) × (result < 256) }
{
    byte as u64
}

// The word whose eight bytes stand at a place; as one sum, so that the compiler makes one load of them.
fn word_at(bytes: &[u8], at: usize) -> u64
    requires { at + 8 ≤ length bytes.now }
    ensures word { (w : ℕ) → w < 2 ^ 64 → ((j : ℕ) → j < 8 → get_or bytes.now (at + j) 0 ≡ word_byte w j) → result ≡ w }
{
    wide(bytes[at])
        + 256 * wide(bytes[at + 1])
        + 65536 * wide(bytes[at + 2])
        + 16777216 * wide(bytes[at + 3])
        + 4294967296 * wide(bytes[at + 4])
        + 1099511627776 * wide(bytes[at + 5])
        + 281474976710656 * wide(bytes[at + 6])
        + 72057594037927936 * wide(bytes[at + 7])
}

// The words that bytes hold; the rows; the number of cycles.
fn words_in(bytes: &[u8]) -> [u64; 128]
    requires { length bytes.now ≡ run_length }
    ensures words { (run : Run) → Fits run → bytes.now ≡ run_bytes run → result ≡ run.words }
{
    let mut words = [0; 128];
    let mut i = 0;
    while i < 128 {
        words[i] = word_at(bytes, 8 * i);
        i += 1;
    }
    words
}

// The place of a kind that a byte names; the first for a byte that names none.
fn kind_place(byte: u8) -> usize
    ensures place { (result < kind_count) × (byte < kind_count → result ≡ byte) }
{
    let place = byte as usize;
    if place < KIND_COUNT { place } else { 0 }
}

fn places_in(bytes: &[u8]) -> [RowPlace; 64]
    requires { length bytes.now ≡ run_length }
    ensures places { (run : Run) → Fits run → bytes.now ≡ run_bytes run → result ≡ run.formula.places }
{
    let kinds = table();
    let mut places = [RowPlace {
        row: Row::Constant(ConstantKind::True),
    }; 64];
    let mut k = 0;
    while k < 64 {
        let at = 1024 + 3 * k;
        let kind = kinds[kind_place(bytes[at])];
        let row = kind.row;
        places[k] = RowPlace {
            row: with_numbers(row, bytes[at + 1], bytes[at + 2]),
        };
        k += 1;
    }
    places
}

fn number_in(low: u8, high: u8) -> u16
    ensures cycles { result ≡ low + 256 * high }
{
    low as u16 + 256 * (high as u16)
}

// The run that bytes hold: any bytes give some run, and those of a run that one.
fn decode(bytes: &[u8]) -> Run
    requires { length bytes.now ≡ run_length }
    ensures run { (run : Run) → Fits run → bytes.now ≡ run_bytes run → result ≡ run }
{
    let words = words_in(bytes);
    let places = places_in(bytes);
    let formula = Formula {
        signals: bytes[1216],
        rows: bytes[1217],
        places,
    };
    Run {
        formula,
        cycles: number_in(bytes[1218], bytes[1219]),
        words,
    }
}

// What bytes hold: a run, where they are the whole bytes of one; else `run` says nothing.
#[derive(Clone, Copy)]
pub struct Held {
    pub whole: bool,
    pub run: Run,
}

// What stands beside bytes that are too few or too many.
fn empty_run() -> Run {
    let places = [RowPlace {
        row: Row::Constant(ConstantKind::True),
    }; 64];
    let formula = Formula {
        signals: 0,
        rows: 0,
        places,
    };
    Run {
        formula,
        cycles: 0,
        words: [0; 128],
    }
}

// Whether the bytes are the same. There is no early exit, so that the compiler compares many bytes at once.
fn same(again: &[u8; RUN_LENGTH], bytes: &[u8]) -> bool
    requires { (length again.now ≡ run_length) × (length bytes.now ≡ run_length) }
    ensures answer { (result ≡ true → again.now ≡ bytes.now) × (again.now ≡ bytes.now → result ≡ true) }
{
    let mut all = true;
    let mut i = 0;
    while i < RUN_LENGTH {
        if again[i] != bytes[i] {
            all = false;
        }
        i += 1;
    }
    all
}

// The run that bytes hold: decoded, and encoded again to see whether each byte is as it would be.
pub fn read(bytes: &[u8]) -> Held
    ensures those { result.whole ≡ true → bytes.now ≡ run_bytes result.run }
    ensures every { (run : Run) → Fits run → bytes.now ≡ run_bytes run → (result.whole ≡ true) × (result.run ≡ run) }
{
    if bytes.len() != RUN_LENGTH {
        return Held {
            whole: false,
            run: empty_run(),
        };
    }
    let run = decode(bytes);
    let again = encode(run);
    let whole = same(&again, bytes);
    Held { whole, run }
}
