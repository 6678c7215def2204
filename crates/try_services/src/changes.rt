// Changes of a run in memory, which no call makes: `signals=N`, `rows=N` and `cycles=N` set a count; `bit=N` sets bit N of the words, and
// `place=N` puts `false` into place N, both counted from 0.
use crate::case;
use tables::row::{ConstantKind, Formula, Row, RowPlace};
use tables::run::Run;
use text::number::Number;
use text::search::Found;

// Whether a word is a change.
pub fn is_change(word: &[u8]) -> bool {
    match text::search::find(word, b'=') {
        Found::At(_) => true,
        Found::Nothing => false,
    }
}

fn number(word: &[u8]) -> usize {
    match text::number::read_number(case::part(word, b'=', 1)) {
        Number::Is(n) => n,
        Number::Not => 0,
    }
}

fn with_counts(run: Run, signals: u8, rows: u8, cycles: u16) -> Run {
    let places = run.formula.places;
    let formula = Formula {
        signals,
        rows,
        places,
    };
    let words = run.words;
    Run {
        formula,
        cycles,
        words,
    }
}

fn with_bit(run: Run, place: usize) -> Run {
    let formula = run.formula;
    let mut words = run.words;
    if place < 8192 {
        words[place / 64] = words[place / 64] | 1u64 << (place % 64);
    }
    Run {
        formula,
        cycles: run.cycles,
        words,
    }
}

fn with_false(run: Run, place: usize) -> Run {
    let mut places = run.formula.places;
    if place < 64 {
        places[place] = RowPlace {
            row: Row::Constant(ConstantKind::False),
        };
    }
    let formula = Formula {
        signals: run.formula.signals,
        rows: run.formula.rows,
        places,
    };
    let words = run.words;
    Run {
        formula,
        cycles: run.cycles,
        words,
    }
}

// The run that a change makes of a run.
pub fn change(run: Run, word: &[u8]) -> Run {
    let field = case::part(word, b'=', 0);
    let n = number(word);
    let signals = run.formula.signals;
    let rows = run.formula.rows;
    if text::search::same(field, b"signals") {
        return with_counts(run, (n % 256) as u8, rows, run.cycles);
    }
    if text::search::same(field, b"rows") {
        return with_counts(run, signals, (n % 256) as u8, run.cycles);
    }
    if text::search::same(field, b"cycles") {
        return with_counts(run, signals, rows, (n % 65536) as u16);
    }
    if text::search::same(field, b"bit") {
        return with_bit(run, n);
    }
    if text::search::same(field, b"place") {
        return with_false(run, n);
    }
    run
}
