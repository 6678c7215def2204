// Services on the table of a rule: `bound RULE`, `normal RULE SIZE`, `negated RULE SIZE`, `step RULE PENDINGS ACTIVATORS SIGNALS SIZE`.
// A rule that is refused has no table, and the service is not called.
use crate::{case, show};
use normal_form::sign::Sign;
use std::io;
use std::io::Write;
use std::rt::Files;
use tables::refusal::Outcome;
use tables::row::Formula;

fn bound<R: Files, W: Write>(rt: &R, out: &mut W, case: &[u8]) -> io::Result<()> {
    let read = case::load_rule(rt, case);
    let outcome = read.outcome;
    match outcome {
        Outcome::Refused(refusal) => printing::print_refusal(out, refusal),
        Outcome::Accepted => show::number(out, b"bound=", normal_file::bound(read.formula)),
    }
}

fn write_normal<W: Write>(
    out: &mut W,
    formula: Formula,
    sign: Sign,
    lent: &mut [u8],
) -> io::Result<()> {
    let answer = normal_file::write_normal(formula, sign, &mut *lent);
    show::lent(out, answer, lent)
}

fn normal<R: Files, W: Write>(rt: &R, out: &mut W, case: &[u8], sign: Sign) -> io::Result<()> {
    let read = case::load_rule(rt, case);
    let mut lent = case::dots();
    let size = case::size(case, 2, &lent);
    let outcome = read.outcome;
    match outcome {
        Outcome::Refused(refusal) => printing::print_refusal(out, refusal),
        Outcome::Accepted => write_normal(out, read.formula, sign, &mut lent[..size]),
    }
}

fn call_step<W: Write>(
    out: &mut W,
    case: &[u8],
    formula: Formula,
    lent: &mut [u8],
) -> io::Result<()> {
    let pendings = case::word(case, 2);
    let activators = case::word(case, 3);
    let signals = case::word(case, 4);
    let answer = step::step(formula, pendings, activators, signals, &mut *lent);
    show::lent(out, answer, lent)
}

fn step<R: Files, W: Write>(rt: &R, out: &mut W, case: &[u8]) -> io::Result<()> {
    let read = case::load_rule(rt, case);
    let mut lent = case::dots();
    let size = case::size(case, 5, &lent);
    let outcome = read.outcome;
    match outcome {
        Outcome::Refused(refusal) => printing::print_refusal(out, refusal),
        Outcome::Accepted => call_step(out, case, read.formula, &mut lent[..size]),
    }
}

// Whether the case is one of these; if so, it is tried.
#[inline(never)]
pub fn tried<R: Files, W: Write>(rt: &R, out: &mut W, case: &[u8]) -> io::Result<bool> {
    if case::names(case, b"bound") {
        bound(rt, out, case)?;
        return Ok(true);
    }
    if case::names(case, b"normal") {
        normal(rt, out, case, Sign::Plain)?;
        return Ok(true);
    }
    if case::names(case, b"negated") {
        normal(rt, out, case, Sign::Negated)?;
        return Ok(true);
    }
    if case::names(case, b"step") {
        step(rt, out, case)?;
        return Ok(true);
    }
    Ok(false)
}
