// Files read alone: `read_rule FILE`, `read_take FILE`, `read_sheet FILE`.
use crate::{case, show};
use std::io;
use std::io::Write;
use std::rt::Files;

fn read_rule<R: Files, W: Write>(rt: &R, out: &mut W, case: &[u8]) -> io::Result<()> {
    let mut space = [0u8; 65537];
    let n = case::load(rt, case, 1, &mut space);
    let answer = rule_file::rule::read_rule(&space[..n]);
    let outcome = answer.outcome;
    show::outcome(out, outcome)
}

fn read_take<R: Files, W: Write>(rt: &R, out: &mut W, case: &[u8]) -> io::Result<()> {
    let mut space = [0u8; 65537];
    let n = case::load(rt, case, 1, &mut space);
    let answer = take_file::take::read_take(&space[..n]);
    let outcome = answer.outcome;
    show::outcome(out, outcome)
}

fn read_sheet<R: Files, W: Write>(rt: &R, out: &mut W, case: &[u8]) -> io::Result<()> {
    let mut space = [0u8; 65537];
    let n = case::load(rt, case, 1, &mut space);
    let answer = sheet_file::sheet::read_sheet(&space[..n]);
    let outcome = answer.outcome;
    show::outcome(out, outcome)
}

// Whether the case is one of these; if so, it is tried.
#[inline(never)]
pub fn tried<R: Files, W: Write>(rt: &R, out: &mut W, case: &[u8]) -> io::Result<bool> {
    if case::names(case, b"read_rule") {
        read_rule(rt, out, case)?;
        return Ok(true);
    }
    if case::names(case, b"read_take") {
        read_take(rt, out, case)?;
        return Ok(true);
    }
    if case::names(case, b"read_sheet") {
        read_sheet(rt, out, case)?;
        return Ok(true);
    }
    Ok(false)
}
