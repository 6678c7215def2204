// Take files.
ghost use Rattle.std.specs.Prelude.{◌≡◌, ◌≤◌};
ghost use Rattle.text.specs.Body.{body_lines};
ghost use Rattle.text.specs.Digits.{digits_form};
ghost use Rattle.text.specs.Result.{map_result};
ghost use Rattle.text.specs.Result.Result.{refused};
ghost use Rattle.take_file.specs.Take.{parse_take, take_answer, trace_of};

use crate::ending::EndingLine;
use tables::refusal::{Outcome, Reason, Refusal};
use tables::trace::{Ending, Lane, Trace};
use text::digits::Digits;
use text::line::Counted;

// What reading a take file gives. (The trace holds an array, so it stands beside the outcome; a refusal leaves it empty.)
#[derive(Clone, Copy)]
pub struct TakeAnswer {
    pub outcome: Outcome,
    pub trace: Trace,
}

// A refusal of a take file.
fn refuse(reason: Reason, line: usize) -> TakeAnswer
    ensures answer { result ≡ take_answer (refused reason line) }
{
    let lanes = [Lane { words: [0; 4] }; 32];
    TakeAnswer {
        outcome: Outcome::Refused(Refusal {
            reason,
            file: 2,
            line,
        }),
        trace: Trace {
            signals: 0,
            cycles: 0,
            ending: Ending::Open,
            lanes,
        },
    }
}

// The cycles, one line each, and nothing behind them.
fn read_cycles(body: &[u8], signals: usize, cycles: usize, ending: Ending) -> TakeAnswer
    requires { (signals ≤ 32) × (cycles ≤ 256) }
    ensures answer { result ≡ take_answer (map_result (trace_of signals cycles ending)
        (body_lines 99 (λ c. digits_form signals) cycles 0 5 body.now)) }
{
    let mut rest = body;
    let mut words = recording::empty();
    let mut c = 0;
    while c < cycles {
        let Digits::At(from, end) = text::digits::digits_line(rest, b'c', c, signals) else {
            return refuse(Reason::WrongForm, c + 5);
        };
        recording::put_cycle(&mut words, &rest[from..end], c);
        rest = &rest[end + 1..];
        c += 1;
    }
    if rest.len() != 0 {
        return refuse(Reason::WrongForm, c + 5);
    }
    let lanes = recording::lanes_from(words);
    TakeAnswer {
        outcome: Outcome::Accepted,
        trace: Trace {
            signals: signals as u8,
            cycles: cycles as u16,
            ending,
            lanes,
        },
    }
}

// A take file: its trace, or the refusal.
pub fn read_take(file: &[u8]) -> TakeAnswer
    ensures answer { result ≡ take_answer (parse_take file.now) }
{
    if 65536 < file.len() {
        return refuse(Reason::TooLong, 0);
    }
    let first = text::line::count_line(file, b"format", 1, 1, Reason::WrongFormat);
    let Counted::Count(_, a) = first else {
        return refuse(text::line::count_reason(first), 1);
    };
    let after_format = &file[a..];
    let second = text::line::count_line(after_format, b"signals", 1, 32, Reason::CountOutOfRange);
    let Counted::Count(signals, b) = second else {
        return refuse(text::line::count_reason(second), 2);
    };
    let after_signals = &after_format[b..];
    let third = text::line::count_line(after_signals, b"cycles", 1, 256, Reason::CountOutOfRange);
    let Counted::Count(cycles, c) = third else {
        return refuse(text::line::count_reason(third), 3);
    };
    let after_cycles = &after_signals[c..];
    let fourth = crate::ending::ending_line(after_cycles, cycles);
    let EndingLine::Ending(ending, d) = fourth else {
        return refuse(crate::ending::ending_reason(fourth), 4);
    };
    read_cycles(&after_cycles[d..], signals, cycles, ending)
}
