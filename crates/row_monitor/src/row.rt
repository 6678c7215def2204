// The monitor of one row along the take.
ghost use Rattle.std.specs.Prelude.{◌≡◌, suc, ◌<◌, true, ltb};
ghost use Rattle.tables.specs.Bit.{bit_at};
ghost use Rattle.tables.specs.Choice.{pick};
ghost use Rattle.monitors.specs.Monitor.{row_monitor};
ghost use Rattle.row_monitor.specs.RowReport.{CourseOf, RowReportOf};
ghost use Rattle.row_monitor.specs.Word.{WholeWord};

use crate::word;
use monitors::{Output, RowState};
use tables::row::Row;
use tables::trace::Lane;

// The monitor of a row, with the lanes that it reads: the row's own activator, and what stands at its numbers.
#[derive(Clone, Copy)]
pub struct RowMonitor {
    pub row: Row,
    pub active: Lane,
    pub first: Lane,
    pub second: Lane,
}

impl RowMonitor {
    // What it says in cycle c of the take.
    fn say(&self, c: u16, pending: bool) -> Output
        requires { c < 256 }
        ensures answer { result ≡ row_monitor self.now.row (bit_at self.now.first c) (bit_at self.now.second c)
            (record { active = bit_at self.now.active c; pending = pending }) }
    {
        let state = RowState {
            active: lanes::lane::bit(self.active, c as usize),
            pending,
        };
        let first = lanes::lane::bit(self.first, c as usize);
        let second = lanes::lane::bit(self.second, c as usize);
        monitors::row(self.row, first, second, state)
    }
}

// How far a take is gone through: so many of its cycles, going on at `start` behind the last of them, up to `end`. Accepts count
// from cycle `from` on.
#[derive(Clone, Copy)]
pub struct Course {
    pub cycles: u16,
    pub start: u16,
    pub from: u16,
    pub end: u16,
}

impl Course {
    // The take's cycle behind cycle c.
    fn next_cycle(self, c: u16) -> u16
        requires { c < 256 }
        ensures answer { result ≡ pick (ltb (suc c) self.cycles) (suc c) self.start }
    {
        if c + 1 < self.cycles {
            c + 1
        } else {
            self.start
        }
    }

    // The next 64 cycles, from cycle i of the course and c of the take on, are one word of the recording, and all of them count or
    // none.
    fn whole_word(self, c: u16, i: u16) -> bool
        requires { (c < 256) × (i < 512) }
        ensures answer { result ≡ true → WholeWord c i self }
    {
        (c % 64 == 0)
            & (c + 64 <= self.cycles)
            & (i + 64 <= self.end)
            & ((i + 64 <= self.from) | (self.from <= i))
    }
}

// A monitor that does not fail: whether it is pending after the last cycle, and whether it has accepted in a cycle that counts.
#[derive(Clone, Copy)]
pub struct RowReport {
    pub pending: bool,
    pub accepted: bool,
}

// The report, or the first cycle in which the monitor fails. It goes word by word where nothing fails in the word and an accept that
// counts needs no search, else cycle by cycle.
pub fn monitor_row(monitor: RowMonitor, course: Course) -> Result<RowReport, u16>
    requires { CourseOf course }
    ensures report { RowReportOf monitor course result }
{
    let mut report = RowReport {
        pending: false,
        accepted: false,
    };
    // no row waits more than this: where it accepts so, it always does
    let most = RowState {
        active: true,
        pending: true,
    };
    let waiting = monitors::row(monitor.row, false, false, most);
    let mut c = 0u16;
    let mut i = 0u16;
    // Stays: a `for` is no plainer, since no range has these steps, 64 cycles or one.
    while i < course.end {
        let counts = course.from <= i;
        if course.whole_word(c, i)
            && let Ok(pending) = word::monitor_word(&monitor, (c / 64) as usize, report.pending)
            && (!counts | report.accepted | waiting.accept | !pending)
        {
            report.pending = pending;
            report.accepted |= counts;
            c = course.next_cycle(c + 63);
            i += 64;
            continue;
        }
        let said = monitor.say(c, report.pending);
        if said.failed {
            return Err(i);
        }
        report.pending = said.pending;
        report.accepted |= said.accept & counts;
        c = course.next_cycle(c);
        i += 1;
    }
    Ok(report)
}
