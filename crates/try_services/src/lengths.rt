// Lengths of what is written, without writing it: `normal_length RULE`, `negated_length RULE`, `sheet_length RULE TAKE`. Files that are
// refused have no tables, and the service is not called.
use crate::{case, show};
use normal_form::sign::Sign;
use std::io;
use std::io::Write;
use std::rt::Files;
use tables::refusal::Outcome;

fn normal<R: Files, W: Write>(rt: &R, out: &mut W, case: &[u8], sign: Sign) -> io::Result<()> {
    let read = case::load_rule(rt, case);
    let outcome = read.outcome;
    match outcome {
        Outcome::Refused(refusal) => printing::print_refusal(out, refusal),
        Outcome::Accepted => show::number(
            out,
            b"length=",
            normal_length::measure(read.formula, sign),
        ),
    }
}

fn sheet<R: Files, W: Write>(rt: &R, out: &mut W, case: &[u8]) -> io::Result<()> {
    let mut rule = [0u8; 65537];
    let n = case::load(rt, case, 1, &mut rule);
    let mut take = [0u8; 65537];
    let m = case::load(rt, case, 2, &mut take);
    let pair = rule_and_take::read_pair(&rule[..n], &take[..m]);
    let outcome = pair.outcome;
    match outcome {
        Outcome::Refused(refusal) => printing::print_refusal(out, refusal),
        Outcome::Accepted => {
            show::number(
                out,
                b"length=",
                sheet_length::measure(pair.formula, pair.trace),
            )
        }
    }
}

// Whether the case is one of these; if so, it is tried.
#[inline(never)]
pub fn tried<R: Files, W: Write>(rt: &R, out: &mut W, case: &[u8]) -> io::Result<bool> {
    if case::names(case, b"normal_length") {
        normal(rt, out, case, Sign::Plain)?;
        return Ok(true);
    }
    if case::names(case, b"negated_length") {
        normal(rt, out, case, Sign::Negated)?;
        return Ok(true);
    }
    if case::names(case, b"sheet_length") {
        sheet(rt, out, case)?;
        return Ok(true);
    }
    Ok(false)
}
