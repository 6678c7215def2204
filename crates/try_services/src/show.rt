// What is printed of an answer.
use judging::verdict::{Answer, Verdict};
use std::io;
use std::io::Write;
use tables::refusal::Outcome;
use writing::answer::Bytes;

// Of a file that is read, or a call that answers nothing else: `ok`, or the refusal.
pub fn outcome<W: Write>(out: &mut W, outcome: Outcome) -> io::Result<()> {
    match outcome {
        Outcome::Accepted => printing::print_bytes(out, b"ok\n"),
        Outcome::Refused(refusal) => printing::print_refusal(out, refusal),
    }
}

fn verdict_word<W: Write>(out: &mut W, word: &[u8]) -> io::Result<()> {
    printing::print_bytes(out, b"verdict=")?;
    printing::print_bytes(out, word)?;
    printing::print_bytes(out, b"\n")
}

// Of a service that judges: the verdict, or the refusal.
pub fn verdict<W: Write>(out: &mut W, answer: Answer) -> io::Result<()> {
    match answer {
        Answer::Refused(refusal) => printing::print_refusal(out, refusal),
        Answer::Judged(verdict) => match verdict {
            Verdict::Holds => verdict_word(out, b"holds"),
            Verdict::Breaks => verdict_word(out, b"breaks"),
            Verdict::Kept => verdict_word(out, b"kept"),
            Verdict::Broken => verdict_word(out, b"broken"),
            Verdict::Open => verdict_word(out, b"open"),
        },
    }
}

// Of a service that answers a number: a key and the number, or the refusal.
pub fn number<W: Write>(out: &mut W, key: &[u8], answer: Bytes) -> io::Result<()> {
    match answer {
        Bytes::Refused(refusal) => printing::print_refusal(out, refusal),
        Bytes::Count(length) => printing::print_line(out, key, length as u64),
    }
}

// Of a service that writes what a program prints: that text.
pub fn text<W: Write>(out: &mut W, answer: Bytes, text: &[u8]) -> io::Result<()> {
    match answer {
        Bytes::Refused(refusal) => printing::print_refusal(out, refusal),
        Bytes::Count(length) => printing::print_text(out, text, length),
    }
}

// Of a service that writes into a lent buffer: how much, and all lent bytes as the call left them.
pub fn lent<W: Write>(out: &mut W, answer: Bytes, lent: &[u8]) -> io::Result<()> {
    number(out, b"written=", answer)?;
    printing::print_bytes(out, lent)?;
    printing::print_bytes(out, b"\n")
}
