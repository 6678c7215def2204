// A trace written out as its take file. Its length is known before, so it is written in place.
#![tactic(auto)]

ghost use Rattle.std.specs.Prelude.{◌≡◌, length, ◌≤◌};
ghost use Rattle.take_file.specs.Valid.{InRange};
ghost use Rattle.take_file.specs.Written.{written_take};
ghost use Rattle.writing.specs.Answer.{Delivers};
ghost use Rattle.writing.specs.Lent.{Wrote};
ghost use Rattle.take_writer.specs.Answer.{take_left, take_written};

use tables::refusal::Outcome;
use tables::trace::{Ending, Trace};
use writing::answer::Bytes;
use writing::length::number_length;
use writing::line::put_number_line;

pub mod cycle;
pub mod ending;

// The whole file, at the buffer's start.
fn put_take(buf: &mut [u8], trace: Trace) -> usize
    requires { InRange trace × (length (written_take trace) ≤ length buf.old) }
    ensures text { Wrote buf.old 0 (written_take trace) buf.new result }
{
    let ending = trace.ending;
    let a = put_number_line(&mut *buf, 0, b"format", 1);
    let b = put_number_line(&mut *buf, a, b"signals", trace.signals as u32);
    let c = put_number_line(&mut *buf, b, b"cycles", trace.cycles as u32);
    let d = ending::put_ending(&mut *buf, c, ending);
    cycle::put_cycles(buf, d, trace)
}

// The length of the file: four lines, and a line for each cycle, whose number has one digit, from 10 on two, and from 100 on three.
fn take_length(trace: Trace) -> usize
    requires { InRange trace }
    ensures length { result ≡ length (written_take trace) }
{
    let ending = trace.ending;
    let header = 32
        + number_length(trace.signals as u32)
        + number_length(trace.cycles as u32)
        + ending::ending_length(ending);
    header + cycle::cycles_length(trace.signals, trace.cycles)
}

// The file of a trace that is known to be in range.
pub fn write_checked(trace: Trace, buf: &mut [u8]) -> Bytes
    requires { InRange trace }
    ensures delivers { Delivers (written_take trace) buf.old buf.new result }
{
    if buf.len() < take_length(trace) {
        return writing::deliver::too_short();
    }
    let n = put_take(buf, trace);
    Bytes::Count(n)
}

// The take file of any trace, written whole or not at all; first the trace's own refusals.
pub fn write_take(trace: Trace, buf: &mut [u8]) -> Bytes
    ensures answer { result ≡ take_written trace buf.old }
    ensures left { buf.new ≡ take_left trace buf.old }
{
    let outcome = take_file::check::check_trace(trace);
    match outcome {
        Outcome::Refused(refusal) => Bytes::Refused(refusal),
        Outcome::Accepted => write_checked(trace, buf),
    }
}
