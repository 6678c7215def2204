// A trace that is handed over as a table, checked as if written out as its file.
ghost use Rattle.std.specs.Prelude.{◌≡◌};
ghost use Rattle.take_file.specs.Outcome.{take_outcome};
ghost use Rattle.take_file.specs.Valid.{Below, InRange, is_below};

use tables::refusal::{Outcome, Reason, Refusal};
use tables::trace::{Ending, Trace};

fn refuse(reason: Reason, line: usize) -> Outcome
    ensures answer { result ≡ Outcome.Refused (record { reason = reason; file = 2; line = line }) }
{
    Outcome::Refused(Refusal {
        reason,
        file: 2,
        line,
    })
}

// Whether the loop's cycle, if there is one, is below `cycles`.
fn is_below(ending: Ending, cycles: u16) -> bool
    ensures answer { result ≡ is_below cycles ending }
    ensures within { Below 65536 ending }
{
    match ending {
        Ending::Open => true,
        Ending::Loop(cycle) => cycle < cycles,
    }
}

// A trace in memory: what reading it, written out as its file, would answer; and what an accepted one is known to be.
pub fn check_trace(trace: Trace) -> Outcome
    ensures outcome { result ≡ take_outcome trace }
    ensures range { result ≡ Outcome.Accepted → InRange trace }
{
    let signals = trace.signals;
    let cycles = trace.cycles;
    let ending = trace.ending;
    if signals < 1 {
        return refuse(Reason::CountOutOfRange, 2);
    }
    if 32 < signals {
        return refuse(Reason::CountOutOfRange, 2);
    }
    if cycles < 1 {
        return refuse(Reason::CountOutOfRange, 3);
    }
    if 256 < cycles {
        return refuse(Reason::CountOutOfRange, 3);
    }
    if !is_below(ending, cycles) {
        return refuse(Reason::BadLoop, 4);
    }
    Outcome::Accepted
}
