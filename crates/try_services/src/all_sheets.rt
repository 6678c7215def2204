// `all_sheets RULE TAKE`: the verdict, and how many of all sheets pass the check, where a sheet has at most 12 digits.
ghost use Rattle.std.specs.Prelude.{◌≤◌, ◌<◌};

use crate::{case, show};
use checking::finding::{CheckAnswer, Finding};
use judging::verdict::Answer;
use normal_form::sign::Sign;
use std::io;
use std::io::Write;
use std::rt::Files;
use tables::refusal::Outcome;
use tables::row::Formula;
use tables::trace::{Activation, Ending, Lane, Trace};

fn power_of_two(n: usize) -> u64
    requires { n < 64 }
    ensures positive { 1 ≤ result }
{
    1u64 << n
}

// The sheet whose digits are the bits of a number, row by row.
fn sheet_of(rows: u8, cycles: u16, number: u64) -> Activation
    requires { (rows ≤ 128) × (cycles < 64) }
{
    let size = power_of_two(cycles as usize);
    let count = rows as usize;
    let mut lanes = [Lane { words: [0; 4] }; 128];
    let mut rest = number;
    let mut k = 0;
    while k < count {
        lanes[k] = Lane {
            words: [rest % size, 0, 0, 0],
        };
        rest = rest / size;
        k += 1;
    }
    Activation {
        rows,
        cycles,
        lanes,
    }
}

fn passes(answer: CheckAnswer) -> u64
    ensures once { result ≤ 1 }
{
    match answer {
        CheckAnswer::Refused(_) => 0,
        CheckAnswer::Checked(finding) => match finding {
            Finding::Root => 0,
            Finding::Failed(_, _) => 0,
            Finding::Starved(_) => 0,
            Finding::Pending(_) => 0,
            Finding::Passes => 1,
        },
    }
}

fn count_passing(formula: Formula, trace: Trace, rows: u8, end: u64) -> u64
    requires { (rows ≤ 128) × (trace.cycles < 64) }
{
    let mut count = 0;
    let mut number = 0;
    while number < end {
        let sheet = sheet_of(rows, trace.cycles, number);
        let answer = checking::check_sheet(formula, trace, sheet);
        count += passes(answer);
        number += 1;
    }
    count
}

fn try_sheets<W: Write>(out: &mut W, formula: Formula, trace: Trace, rows: u8) -> io::Result<()> {
    if 12 < rows {
        return Ok(());
    }
    if 12 < trace.cycles {
        return Ok(());
    }
    let digits = (rows as usize) * (trace.cycles as usize);
    if 12 < digits {
        return Ok(());
    }
    let end = power_of_two(digits);
    printing::print_line(out, b"passing=", count_passing(formula, trace, rows, end))
}

fn judge(formula: Formula, trace: Trace) -> Answer {
    let ending = trace.ending;
    match ending {
        Ending::Open => judging::judge_open(formula, trace),
        Ending::Loop(_) => judging::judge_looped(formula, trace),
    }
}

fn try_all<W: Write>(out: &mut W, formula: Formula, trace: Trace) -> io::Result<()> {
    show::verdict(out, judge(formula, trace))?;
    let outcome = rule_file::check::check_formula(formula);
    match outcome {
        Outcome::Refused(refusal) => printing::print_refusal(out, refusal),
        Outcome::Accepted => {
            let form = normal_form::normal_form(formula, Sign::Plain);
            try_sheets(out, formula, trace, form.rows)
        }
    }
}

fn report<R: Files, W: Write>(rt: &R, out: &mut W, case: &[u8]) -> io::Result<()> {
    let mut rule = [0u8; 65537];
    let n = case::load(rt, case, 1, &mut rule);
    let mut take = [0u8; 65537];
    let m = case::load(rt, case, 2, &mut take);
    let formula = rule_file::rule::read_rule(&rule[..n]);
    let trace = take_file::take::read_take(&take[..m]);
    try_all(out, formula.formula, trace.trace)
}

// Whether the case is one of these; if so, it is tried.
#[inline(never)]
pub fn tried<R: Files, W: Write>(rt: &R, out: &mut W, case: &[u8]) -> io::Result<bool> {
    if case::names(case, b"all_sheets") {
        report(rt, out, case)?;
        return Ok(true);
    }
    Ok(false)
}
