// Tries the services on the cases that its arguments are, each the name of a service and its inputs, and prints of each the case as it is
// and what the service answers. `tests/make_cases.py` makes the cases. Each service has a function and a branch of `tried` in a module
// here, and an arm in `rust/second/src/bin/expected.rs`, which says what must be printed. No `tried` is inlined, so that the stack holds
// the buffers of one alone.
#![tactic(auto)]

ghost use Rattle.std.specs.Prelude.{◌≤◌, IfSome, length};

mod all_sheets;
mod case;
mod changes;
mod circuits;
mod lengths;
mod reading;
mod rules;
mod runs;
mod show;
mod takes;
mod texts;

use std::env::FillError;
use std::io;
use std::io::Write;
use std::process::ExitCode;
use std::rt::{Env, Files};

fn report<R: Files, W: Write>(rt: &R, out: &mut W, case: &[u8]) -> io::Result<()> {
    printing::print_bytes(out, case)?;
    printing::print_bytes(out, b"\n")?;
    if reading::tried(rt, out, case)? {
        return Ok(());
    }
    if rules::tried(rt, out, case)? {
        return Ok(());
    }
    if lengths::tried(rt, out, case)? {
        return Ok(());
    }
    if circuits::tried(rt, out, case)? {
        return Ok(());
    }
    if runs::tried(rt, out, case)? {
        return Ok(());
    }
    if texts::tried(rt, out, case)? {
        return Ok(());
    }
    if takes::tried(rt, out, case)? {
        return Ok(());
    }
    if !all_sheets::tried(rt, out, case)? {
        printing::print_bytes(out, b"no such service\n")?;
    }
    Ok(())
}

// An argument's bytes into a buffer, and how many, none of one that is longer; nothing behind the last.
fn argument<R: Env>(rt: &R, i: usize, case: &mut [u8]) -> Option<usize>
    ensures fits { IfSome result (λ n. n ≤ length case.new) }
{
    match rt.arg(i, case) {
        Ok(n) => Some(n),
        Err(FillError::TooLong) => Some(0),
        Err(FillError::NotPresent) => None,
    }
}

// Whether there is such an argument; if so, it is tried.
fn report_argument<R: Env + Files, W: Write>(rt: &R, out: &mut W, i: usize) -> io::Result<bool> {
    let mut case = [0u8; 4096];
    let Some(n) = argument(rt, i, &mut case) else {
        return Ok(false);
    };
    report(rt, out, &case[..n])?;
    Ok(true)
}

fn run<R: Env + Files, W: Write>(rt: &R, out: &mut W) -> io::Result<()> {
    for i in 1..usize::MAX {
        if !report_argument(rt, out, i)? {
            break;
        }
    }
    Ok(())
}

fn main(rt: HostRuntime) -> ExitCode {
    let written = run(&rt, &mut io::writer(&rt));
    printing::tell(&rt, written)
}
