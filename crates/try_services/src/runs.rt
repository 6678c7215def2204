// Runs in memory: `run RULE CALL...`. A run begins with the rule, and each call gets the run that the last one handed back. `?` calls for
// the verdict, `begin` begins with the rule that the run holds, any other word is handed over as the digits of a cycle. A word with `=`
// is no call: it changes the run (changes.rt). A rule file that is refused has no table, and no run begins.
use crate::{case, changes, show};
use std::io;
use std::io::Write;
use std::rt::Files;
use tables::refusal::Outcome;
use tables::row::Formula;
use tables::run::Run;

// Of a call that must leave the run alone: whether it did. Two runs that differ have different bytes.
fn show_left<W: Write>(out: &mut W, before: Run, after: Run) -> io::Result<()> {
    let first = run_bytes::encode(before);
    let second = run_bytes::encode(after);
    if text::search::same(&first, &second) {
        printing::print_bytes(out, b"run=same\n")
    } else {
        printing::print_bytes(out, b"run=other\n")
    }
}

fn begin<W: Write>(out: &mut W, formula: Formula) -> io::Result<Run> {
    let told = run::begin(formula);
    let outcome = told.outcome;
    show::outcome(out, outcome)?;
    Ok(told.run)
}

fn take_cycle<W: Write>(out: &mut W, before: Run, digits: &[u8]) -> io::Result<Run> {
    let told = run::take_cycle(before, digits);
    let outcome = told.outcome;
    show::outcome(out, outcome)?;
    match outcome {
        Outcome::Accepted => {}
        Outcome::Refused(_) => show_left(out, before, told.run)?,
    }
    Ok(told.run)
}

fn verdict<W: Write>(out: &mut W, before: Run) -> io::Result<Run> {
    let told = run::verdict(before);
    let answer = told.answer;
    show::verdict(out, answer)?;
    show_left(out, before, told.run)?;
    Ok(told.run)
}

fn call<W: Write>(out: &mut W, before: Run, word: &[u8]) -> io::Result<Run> {
    if changes::is_change(word) {
        return Ok(changes::change(before, word));
    }
    if text::search::same(word, b"?") {
        return verdict(out, before);
    }
    if text::search::same(word, b"begin") {
        return begin(out, before.formula);
    }
    take_cycle(out, before, word)
}

fn call_all<W: Write>(out: &mut W, case: &[u8], formula: Formula) -> io::Result<()> {
    let count = case::count(case);
    let mut state = begin(out, formula)?;
    let mut i = 2;
    while i < count {
        state = call(out, state, case::word(case, i))?;
        i += 1;
    }
    Ok(())
}

fn run<R: Files, W: Write>(rt: &R, out: &mut W, case: &[u8]) -> io::Result<()> {
    let read = case::load_rule(rt, case);
    let outcome = read.outcome;
    match outcome {
        Outcome::Refused(refusal) => printing::print_refusal(out, refusal),
        Outcome::Accepted => call_all(out, case, read.formula),
    }
}

// Whether the case is one of these; if so, it is tried.
#[inline(never)]
pub fn tried<R: Files, W: Write>(rt: &R, out: &mut W, case: &[u8]) -> io::Result<bool> {
    if case::names(case, b"run") {
        run(rt, out, case)?;
        return Ok(true);
    }
    Ok(false)
}
