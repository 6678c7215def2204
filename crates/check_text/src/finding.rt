// The lines of a finding.
ghost use Rattle.std.specs.Prelude.{[], ◌+◌, ◌≤◌, length};
ghost use Rattle.tables.specs.Bytes.{bytes};
ghost use Rattle.text.specs.Written.{written_line};
ghost use Rattle.writing.specs.Answer.{Delivers};
ghost use Rattle.writing.specs.Lent.{Wrote};
ghost use Rattle.check_text.specs.Text.{CycleBelow, finding_place, finding_text, finding_word};

use checking::finding::Finding;
use writing::answer::Bytes;
use writing::line::{put_number_line, put_text_line};

fn put_word(buf: &mut [u8], finding: Finding) -> usize
    requires { 16 ≤ length buf.old }
    ensures text { Wrote buf.old 0 (written_line (bytes "finding") (finding_word finding) []) buf.new result }
    ensures room { result ≤ 16 }
{
    match finding {
        Finding::Root => put_text_line(buf, 0, b"finding", b"root"),
        Finding::Failed(_, _) => put_text_line(buf, 0, b"finding", b"failed"),
        Finding::Starved(_) => put_text_line(buf, 0, b"finding", b"starved"),
        Finding::Pending(_) => put_text_line(buf, 0, b"finding", b"pending"),
        Finding::Passes => put_text_line(buf, 0, b"finding", b"passes"),
    }
}

fn put_place(buf: &mut [u8], at: usize, finding: Finding) -> usize
    requires { (at + 18 ≤ length buf.old) × CycleBelow 1000 finding }
    ensures text { Wrote buf.old at (finding_place finding) buf.new result }
{
    match finding {
        Finding::Root => at,
        Finding::Failed(row, cycle) => {
            let i = put_number_line(&mut *buf, at, b"row", row as u32);
            put_number_line(buf, i, b"cycle", cycle as u32)
        }
        Finding::Starved(row) => put_number_line(buf, at, b"row", row as u32),
        Finding::Pending(row) => put_number_line(buf, at, b"row", row as u32),
        Finding::Passes => at,
    }
}

// All of them, at the buffer's start.
fn put_finding(buf: &mut [u8], finding: Finding) -> usize
    requires { (64 ≤ length buf.old) × CycleBelow 1000 finding }
    ensures text { Wrote buf.old 0 (finding_text finding) buf.new result }
{
    let word = finding;
    let i = put_word(&mut *buf, word);
    put_place(buf, i, finding)
}

// The text of a finding, delivered.
pub fn deliver_finding(finding: Finding, buf: &mut [u8]) -> Bytes
    requires { CycleBelow 1000 finding }
    ensures delivers { Delivers (finding_text finding) buf.old buf.new result }
{
    let mut space = [0u8; 64];
    let n = put_finding(&mut space, finding);
    writing::deliver::deliver(&space[..n], buf)
}
