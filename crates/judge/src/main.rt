// Judges `take.txt` by `rule.txt`, both in the working folder, and prints the verdict or the refusal. All that is printed comes from
// `judge_text::judge_read`; here files are only read, through the one buffer of `loading`, and bytes printed.
#![tactic(auto)]

use std::io;
use std::io::Write;
use std::process::ExitCode;
use std::rt::Files;
use writing::answer::Bytes;

fn run<R: Files, W: Write>(rt: &R, out: &mut W) -> io::Result<()> {
    let pair = loading::pair(rt);
    let mut text = [0u8; 64];
    let answer = judge_text::judge_read(pair, &mut text);
    match answer {
        Bytes::Refused(refusal) => printing::print_refusal(out, refusal),
        Bytes::Count(length) => printing::print_text(out, &text, length),
    }
}

fn main(rt: HostRuntime) -> ExitCode {
    let written = run(&rt, &mut io::writer(&rt));
    printing::tell(&rt, written)
}
