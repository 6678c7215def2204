// The lines of the cycles.
ghost use Rattle.std.specs.Prelude.{[], ◌∷◌, ◌≡◌, ◌+◌, ◌*◌, ◌-◌, ◌≤◌, ◌<◌, length};
ghost use Rattle.text.specs.Written.{decimal, digits_text, written_body, written_line};
ghost use Rattle.take_file.specs.Written.{cycle_of, cycles_of};
ghost use Rattle.take_file.specs.Valid.{InRange};
ghost use Rattle.writing.specs.Lent.{Wrote};

use tables::trace::Trace;
use writing::put::{put_bit, put_byte, put_number};

// One digit for each signal.
fn put_digits(buf: &mut [u8], at: usize, trace: Trace, cycle: usize) -> usize
    requires { (trace.signals ≤ 32) × (cycle < 256) × (at + trace.signals ≤ length buf.old) }
    ensures text { Wrote buf.old at (digits_text (cycle_of trace cycle)) buf.new result }
{
    let mut end = at;
    for lane in &trace.lanes[..trace.signals as usize] {
        end = put_bit(&mut *buf, end, lanes::lane::bit(*lane, cycle));
    }
    end
}

// The line of one cycle.
fn put_cycle(buf: &mut [u8], at: usize, trace: Trace, cycle: usize) -> usize
    requires { InRange trace × (cycle < 256)
        × (at + length (written_line (99 ∷ decimal cycle) (digits_text (cycle_of trace cycle)) []) ≤ length buf.old) }
    ensures text { Wrote buf.old at (written_line (99 ∷ decimal cycle) (digits_text (cycle_of trace cycle)) [])
        buf.new result }
{
    let a = put_byte(&mut *buf, at, b'c');
    let b = put_number(&mut *buf, a, cycle as u32);
    let c = put_byte(&mut *buf, b, b'=');
    let d = put_digits(&mut *buf, c, trace, cycle);
    put_byte(buf, d, b'\n')
}

// The lines of all cycles.
pub fn put_cycles(buf: &mut [u8], at: usize, trace: Trace) -> usize
    requires { InRange trace × (at + length (written_body 99 digits_text 0 (cycles_of trace)) ≤ length buf.old) }
    ensures text { Wrote buf.old at (written_body 99 digits_text 0 (cycles_of trace)) buf.new result }
{
    let mut end = at;
    for c in 0..trace.cycles as usize {
        end = put_cycle(&mut *buf, end, trace, c);
    }
    end
}

// How long they are: each has `c`, `=`, its digits, a line feed and its number, which has a digit more from 10 on and another from 100 on.
pub fn cycles_length(signals: u8, cycles: u16) -> usize
    requires { cycles ≤ 256 }
    ensures length { result ≡ cycles * (signals + 4) + (cycles - 10) + (cycles - 100) }
{
    let n = cycles as usize;
    n * (signals as usize + 4) + n.saturating_sub(10) + n.saturating_sub(100)
}
