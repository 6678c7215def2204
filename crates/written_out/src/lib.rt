// The take with rounds of its loop written out before the loop (02, request 6): the same endless repetition, with a loop that begins later.
#![tactic(auto)]

ghost use Rattle.std.specs.Prelude.{◌≡◌, ◌&&◌, ◌-◌, ◌≤◌, ◌<◌, ltb};
ghost use Rattle.tables.specs.Bit.{bit_at, lane_of};
ghost use Rattle.meaning.specs.Trace.{position};
ghost use Rattle.take_file.specs.Valid.{InRange};
ghost use Rattle.written_out.specs.WrittenOut.{written_lanes, written_loop, written_out};

use tables::trace::{Ending, Lane, Trace, with_bit};

// One signal's lane over `last` cycles: behind the recording's, each is as one round of the loop before.
fn lane_out(lane: Lane, cycles: usize, start: usize, last: usize) -> Lane
    requires { (start < cycles) × (cycles ≤ last) × (last ≤ 256) }
    ensures answer { result ≡ lane_of (λ c. ltb c last && bit_at lane (position cycles start c)) }
{
    let period = cycles - start;
    let mut out = lanes::lane::both(lane, lanes::lane::all(cycles));
    for c in cycles..last {
        if lanes::lane::bit(out, c - period) {
            out = with_bit(out, c);
        }
    }
    out
}

fn lanes_out(lanes: [Lane; 32], cycles: usize, start: usize, last: usize) -> [Lane; 32]
    requires { (start < cycles) × (cycles ≤ last) × (last ≤ 256) }
    ensures answer { result ≡ written_lanes lanes cycles start last }
{
    lanes.map(|lane| lane_out(lane, cycles, start, last))
}

// So many cycles more before a loop, where there are at most 256 then; else the trace as it stands is handed back.
fn loop_out(trace: Trace, start: u16, more: u32) -> Result<Trace, Trace>
    requires { (start < trace.cycles) × (more < 65536) }
    ensures answer { result ≡ written_loop trace start more }
{
    if trace.cycles as u32 + more > 256 {
        return Err(trace);
    }
    let shift = more as u16;
    let cycles = trace.cycles + shift;
    let moved = start + shift;
    let lanes = lanes_out(
        trace.lanes,
        trace.cycles as usize,
        start as usize,
        cycles as usize,
    );
    Ok(Trace {
        signals: trace.signals,
        cycles,
        ending: Ending::Loop(moved),
        lanes,
    })
}

// Without rounds it is the trace as it stands, and an open one has no loop. Where it would have more than 256 cycles, the trace as it
// stands is handed back.
pub fn written_out(trace: Trace, rounds: u8) -> Result<Trace, Trace>
    requires { InRange trace }
    ensures answer { result ≡ written_out trace rounds }
{
    match trace.ending {
        Ending::Open => Ok(trace),
        Ending::Loop(start) => {
            if rounds == 0 {
                return Ok(trace);
            }
            let more = rounds as u32 * (trace.cycles - start) as u32;
            loop_out(trace, start, more)
        }
    }
}
