// Reads `rule.txt` in the working folder and writes the file of its normal form to standard output, or the refusal. What is written comes
// from `normal_file::write_form`; here the file is only read, through the buffer of `loading`, and bytes printed.
#![tactic(auto)]

use normal_form::sign::Sign;
use std::io;
use std::io::Write;
use std::process::ExitCode;
use std::rt::Files;
use tables::refusal::Outcome;
use writing::answer::Bytes;

fn run<R: Files, W: Write>(rt: &R, out: &mut W) -> io::Result<()> {
    let answer = loading::rule(rt);
    let outcome = answer.outcome;
    match outcome {
        Outcome::Refused(refusal) => printing::print_refusal(out, refusal),
        Outcome::Accepted => {
            let formula = answer.formula;
            let mut text = [0u8; 2846];
            let written = normal_file::write_form(formula, Sign::Plain, &mut text);
            match written {
                Bytes::Refused(refusal) => printing::print_refusal(out, refusal),
                Bytes::Count(length) => printing::print_text(out, &text, length),
            }
        }
    }
}

fn main(rt: HostRuntime) -> ExitCode {
    let written = run(&rt, &mut io::writer(&rt));
    printing::tell(&rt, written)
}
