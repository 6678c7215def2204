// Circuits: `read_circuit FILE`, `circuit RULE SIZE`, `simulate FILE INPUTS LATCHES SIZE`. A rule that is refused has no table, and its
// circuit is not asked for.
use crate::{case, show};
use std::io;
use std::io::Write;
use std::rt::Files;
use tables::refusal::Outcome;
use tables::row::Formula;

fn read_circuit<R: Files, W: Write>(rt: &R, out: &mut W, case: &[u8]) -> io::Result<()> {
    let mut space = [0u8; 65537];
    let n = case::load(rt, case, 1, &mut space);
    let answer = circuit_file::read_circuit(&space[..n]);
    let outcome = answer.outcome;
    show::outcome(out, outcome)
}

fn write_circuit<W: Write>(out: &mut W, formula: Formula, lent: &mut [u8]) -> io::Result<()> {
    let answer = circuit_writer::write_circuit(formula, &mut *lent);
    show::lent(out, answer, lent)
}

fn circuit<R: Files, W: Write>(rt: &R, out: &mut W, case: &[u8]) -> io::Result<()> {
    let read = case::load_rule(rt, case);
    let mut lent = case::dots();
    let size = case::size(case, 2, &lent);
    let outcome = read.outcome;
    match outcome {
        Outcome::Refused(refusal) => printing::print_refusal(out, refusal),
        Outcome::Accepted => write_circuit(out, read.formula, &mut lent[..size]),
    }
}

fn call_simulate<W: Write>(
    out: &mut W,
    case: &[u8],
    circuit: &[u8],
    lent: &mut [u8],
) -> io::Result<()> {
    let inputs = case::word(case, 2);
    let latches = case::word(case, 3);
    let answer = simulator::simulate(circuit, inputs, latches, &mut *lent);
    show::lent(out, answer, lent)
}

fn simulate<R: Files, W: Write>(rt: &R, out: &mut W, case: &[u8]) -> io::Result<()> {
    let mut space = [0u8; 65537];
    let n = case::load(rt, case, 1, &mut space);
    let mut lent = case::dots();
    let size = case::size(case, 4, &lent);
    call_simulate(out, case, &space[..n], &mut lent[..size])
}

// Whether the case is one of these; if so, it is tried.
#[inline(never)]
pub fn tried<R: Files, W: Write>(rt: &R, out: &mut W, case: &[u8]) -> io::Result<bool> {
    if case::names(case, b"read_circuit") {
        read_circuit(rt, out, case)?;
        return Ok(true);
    }
    if case::names(case, b"circuit") {
        circuit(rt, out, case)?;
        return Ok(true);
    }
    if case::names(case, b"simulate") {
        simulate(rt, out, case)?;
        return Ok(true);
    }
    Ok(false)
}
