// All rows' monitors along the take, one after the other.
ghost use Rattle.std.specs.Prelude.{◌≡◌, suc, ◌<◌, ◌≤◌};
ghost use Rattle.meaning.specs.Rows.{Each, EachSignal};
ghost use Rattle.normal_form.specs.Form.{InNormalForm};
ghost use Rattle.row_monitor.specs.RowReport.{CourseOf};
ghost use Rattle.checking.specs.Survey.{SurveyTo, earlier as earlierOf, monitor_at, noted};

use row_monitor::row;
use row_monitor::row::{Course, RowMonitor, RowReport};
use tables::row::{NormalForm, Row};
use tables::trace::{Activation, Trace};

// Rows count from 1.
#[derive(Clone, Copy)]
pub struct Failure {
    pub row: u8,
    pub cycle: u16,
}

// The earliest failure, in the lowest row that fails in its cycle. Where none fails: the lowest row without an accept that counts, and
// the lowest row that is pending after the last cycle.
#[derive(Clone, Copy)]
pub struct Survey {
    pub failure: Option<Failure>,
    pub starved: Option<u8>,
    pub pending: Option<u8>,
}

// The earlier failure; of two in one cycle, the one that was noted first.
fn earlier(before: Option<Failure>, failure: Failure) -> Failure
    ensures answer { result ≡ earlierOf before failure }
{
    match before {
        Some(first) if first.cycle <= failure.cycle => first,
        _ => failure,
    }
}

impl Survey {
    // One row more.
    fn note(&mut self, row: u8, report: Result<RowReport, u16>)
        ensures answer { self.new ≡ noted self.old row report }
    {
        match report {
            Ok(report) => {
                self.starved = self.starved.or((!report.accepted).then_some(row));
                self.pending = self.pending.or(report.pending.then_some(row));
            }
            Err(cycle) => self.failure = Some(earlier(self.failure, Failure { row, cycle })),
        }
    }
}

// The monitor of the row in place k.
fn monitor_of(row: Row, k: usize, trace: &Trace, sheet: &Activation) -> RowMonitor
    requires place { k < 128 }
    requires operands { Each (λ a. (1 ≤ a) × (a ≤ 128)) row }
    requires signals { EachSignal (λ s. (1 ≤ s) × (s ≤ 32)) row }
    ensures answer { result ≡ monitor_at trace.now sheet.now row (suc k) }
{
    let none = lanes::lane::none();
    let (first, second) = match row {
        Row::Constant(_) => (none, none),
        Row::Signal(_, s) => (trace.lanes[s as usize - 1], none),
        Row::Unary(_, a) => (sheet.lanes[a as usize - 1], none),
        Row::Binary(_, a, b) => (sheet.lanes[a as usize - 1], sheet.lanes[b as usize - 1]),
    };
    RowMonitor {
        row,
        active: sheet.lanes[k],
        first,
        second,
    }
}

// Rows are independent of one another: a monitor reads its own pending and all rows' activators, which the sheet gives.
pub fn survey_rows(form: NormalForm, trace: Trace, sheet: Activation, course: Course) -> Survey
    requires { InNormalForm form × CourseOf course }
    ensures survey { SurveyTo form trace sheet course form.rows result }
{
    let mut survey = Survey {
        failure: None,
        starved: None,
        pending: None,
    };
    for k in 0..form.rows as usize {
        let monitor = monitor_of(form.places[k].row, k, &trace, &sheet);
        let report = row::monitor_row(monitor, course);
        survey.note(k as u8 + 1, report);
    }
    survey
}
