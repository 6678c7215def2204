// Services on the trace of a take: `written_out TAKE ROUNDS`, which prints the take file or `none`. A take that is refused has no trace,
// and the service is not called.
use crate::{case, show};
use std::io;
use std::io::Write;
use std::rt::Files;
use tables::refusal::Outcome;
use tables::trace::Trace;
use text::number::Number;

// How many rounds, from a word that is a number.
fn rounds(case: &[u8]) -> u8 {
    match text::number::read_number(case::word(case, 2)) {
        Number::Is(n) => (n % 256) as u8,
        Number::Not => 0,
    }
}

// The take file of the written-out form, or `none`. The longest take file has 32 signals, 256 cycles and no loop.
fn show_take<W: Write>(out: &mut W, take: Result<Trace, Trace>) -> io::Result<()> {
    let mut text = [0u8; 9659];
    match take {
        Ok(trace) => {
            let answer = take_writer::write_take(trace, &mut text);
            show::text(out, answer, &text)
        }
        Err(_) => printing::print_bytes(out, b"none\n"),
    }
}

// The service takes traces in range alone, and the check says that this one is.
fn call_written_out<W: Write>(out: &mut W, case: &[u8], trace: Trace) -> io::Result<()> {
    let outcome = take_file::check::check_trace(trace);
    match outcome {
        Outcome::Refused(refusal) => printing::print_refusal(out, refusal),
        Outcome::Accepted => show_take(out, written_out::written_out(trace, rounds(case))),
    }
}

fn written_out<R: Files, W: Write>(rt: &R, out: &mut W, case: &[u8]) -> io::Result<()> {
    let mut space = [0u8; 65537];
    let n = case::load(rt, case, 1, &mut space);
    let read = take_file::take::read_take(&space[..n]);
    let outcome = read.outcome;
    match outcome {
        Outcome::Refused(refusal) => printing::print_refusal(out, refusal),
        Outcome::Accepted => call_written_out(out, case, read.trace),
    }
}

// Whether the case is one of these; if so, it is tried.
#[inline(never)]
pub fn tried<R: Files, W: Write>(rt: &R, out: &mut W, case: &[u8]) -> io::Result<bool> {
    if case::names(case, b"written_out") {
        written_out(rt, out, case)?;
        return Ok(true);
    }
    Ok(false)
}
