// The finding of a check on tables that have passed their own checks.
ghost use Rattle.std.specs.Prelude.{◌≡◌, ◌≤◌};
ghost use Rattle.take_file.specs.Valid.{Below as LoopBelow, InRange};
ghost use Rattle.normal_form.specs.Form.{InNormalForm};
ghost use Rattle.checking.specs.Finding.{FindingOf};
ghost use Rattle.checking.specs.Conclusion.{concluded, course_of};

use crate::finding::Finding;
use crate::survey;
use crate::survey::Survey;
use row_monitor::row::Course;
use tables::row::NormalForm;
use tables::trace::{Activation, Ending, Trace};

fn course_of(cycles: u16, ending: Ending) -> Course
    requires { (cycles ≤ 256) × LoopBelow cycles ending }
    ensures answer { result ≡ course_of cycles ending }
{
    match ending {
        Ending::Open => Course {
            cycles,
            start: 0,
            from: cycles,
            end: cycles,
        },
        Ending::Loop(start) => Course {
            cycles,
            start,
            from: cycles,
            end: cycles + (cycles - start),
        },
    }
}

fn conclude(survey: Survey, ending: Ending) -> Finding
    ensures answer { result ≡ concluded ending survey }
{
    if let Some(failure) = survey.failure {
        return Finding::Failed(failure.row, failure.cycle);
    }
    match ending {
        Ending::Open => survey.pending.map_or(Finding::Passes, Finding::Pending),
        Ending::Loop(_) => survey.starved.map_or(Finding::Passes, Finding::Starved),
    }
}

pub fn find(form: NormalForm, trace: Trace, sheet: Activation) -> Finding
    requires { InNormalForm form × InRange trace }
    ensures finding { FindingOf form trace sheet result }
{
    let root = form.rows as usize - 1;
    if !lanes::lane::bit(sheet.lanes[root], 0) {
        return Finding::Root;
    }
    let course = course_of(trace.cycles, trace.ending);
    let seen = survey::survey_rows(form, trace, sheet, course);
    conclude(seen, trace.ending)
}
