// The five lines of a verdict.
ghost use Rattle.std.specs.Prelude.{[], ◌+◌, ◌≤◌, ◌<◌, length};
ghost use Rattle.tables.specs.Bytes.{bytes};
ghost use Rattle.text.specs.Written.{written_line};
ghost use Rattle.take_file.specs.Valid.{Below};
ghost use Rattle.writing.specs.Answer.{Delivers};
ghost use Rattle.writing.specs.Lent.{Wrote};
ghost use Rattle.judge_text.specs.Text.{verdict_text, verdict_word};

use judging::verdict::Verdict;
use tables::trace::Ending;
use writing::answer::Bytes;
use writing::line::{put_number_line, put_text_line};

fn put_word(buf: &mut [u8], at: usize, verdict: Verdict) -> usize
    requires { at + 15 ≤ length buf.old }
    ensures text { Wrote buf.old at (written_line (bytes "verdict") (verdict_word verdict) []) buf.new result }
    ensures room { result ≤ at + 15 }
{
    match verdict {
        Verdict::Holds => put_text_line(buf, at, b"verdict", b"holds"),
        Verdict::Breaks => put_text_line(buf, at, b"verdict", b"breaks"),
        Verdict::Kept => put_text_line(buf, at, b"verdict", b"kept"),
        Verdict::Broken => put_text_line(buf, at, b"verdict", b"broken"),
        Verdict::Open => put_text_line(buf, at, b"verdict", b"open"),
    }
}

// All five, at the buffer's start.
fn put_verdict(
    buf: &mut [u8],
    signals: u8,
    rows: u8,
    cycles: u16,
    ending: Ending,
    verdict: Verdict,
) -> usize
    requires { (64 ≤ length buf.old) × (cycles < 1000) × Below 1000 ending }
    ensures text { Wrote buf.old 0 (verdict_text signals rows cycles ending verdict) buf.new result }
    ensures room { result ≤ 64 }
{
    let a = put_number_line(&mut *buf, 0, b"signals", signals as u32);
    let b = put_number_line(&mut *buf, a, b"rows", rows as u32);
    let c = put_number_line(&mut *buf, b, b"cycles", cycles as u32);
    let d = take_writer::ending::put_ending(&mut *buf, c, ending);
    put_word(buf, d, verdict)
}

// The text of a verdict, delivered.
pub fn deliver_verdict(
    signals: u8,
    rows: u8,
    cycles: u16,
    ending: Ending,
    verdict: Verdict,
    buf: &mut [u8],
) -> Bytes
    requires { (cycles < 1000) × Below 1000 ending }
    ensures delivers { Delivers (verdict_text signals rows cycles ending verdict) buf.old buf.new result }
{
    let mut space = [0u8; 64];
    let n = put_verdict(&mut space, signals, rows, cycles, ending, verdict);
    writing::deliver::deliver(&space[..n], buf)
}
