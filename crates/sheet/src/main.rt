// Makes the activator sheet for `rule.txt` and `take.txt`, both in the working folder, and prints its file, or the line `none`, or the
// refusal. All that is printed comes from `sheet_text::sheet_read`; here files are only read, through the one buffer of `loading`, and
// bytes printed.
#![tactic(auto)]

use std::io;
use std::io::Write;
use std::process::ExitCode;
use std::rt::Files;
use writing::answer::Bytes;

fn run<R: Files, W: Write>(rt: &R, out: &mut W) -> io::Result<()> {
    let pair = loading::pair(rt);
    let mut text = [0u8; 33567];
    let answer = sheet_text::sheet_read(pair, &mut text);
    match answer {
        Bytes::Refused(refusal) => printing::print_refusal(out, refusal),
        Bytes::Count(length) => printing::print_text(out, &text, length),
    }
}

fn main(rt: HostRuntime) -> ExitCode {
    let written = run(&rt, &mut io::writer(&rt));
    printing::tell(&rt, written)
}
