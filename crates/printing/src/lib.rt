// What the programs print, and how they end where it could not be written. Each function stops at the first write that fails.
#![tactic(auto)]

ghost use Rattle.std.specs.Prelude.{◌≡◌, ◌<◌, ◌≤◌, OnOk, OnErr, decimal, take, length};
ghost use Rattle.std.specs.Io.KnownBytes.{Appends, Keeps};
ghost use Rattle.std.specs.Process.{exit_status};
ghost use Rattle.printing.specs.Lines.{key_line, refusal_lines};

use std::io;
use std::io::Write;
use std::process::ExitCode;
use tables::refusal::Refusal;

// The status of a program that has printed. A write that failed (a full disk, a closed descriptor) is told on standard error too; nothing
// is left to tell where that fails as well.
pub fn tell(rt: &impl Eprint, written: io::Result<()>) -> ExitCode
    ensures written { OnOk written (exit_status result ≡ 0) }
    ensures failed { OnErr written (exit_status result ≡ 1) }
{
    match written {
        Ok(()) => ExitCode::SUCCESS,
        Err(_) => {
            let _ = rt.eprint("could not write to standard output\n");
            ExitCode::FAILURE
        }
    }
}

pub fn print_bytes<W: Write>(out: &mut W, text: &[u8]) -> io::Result<()>
    ensures bytes { OnOk result (Appends (W.contents out.old) (W.contents out.new) text.now) }
{
    out.write_all(text)
}

pub fn print_number<W: Write>(out: &mut W, n: u64) -> io::Result<()>
    ensures bytes { OnOk result (Appends (W.contents out.old) (W.contents out.new) (decimal n)) }
{
    write!(out, "{n}")
}

// A key, a number, a line feed.
pub fn print_line<W: Write>(out: &mut W, key: &[u8], n: u64) -> io::Result<()>
    ensures bytes { OnOk result (Appends (W.contents out.old) (W.contents out.new) (key_line key.now n)) }
{
    print_bytes(out, key)?;
    print_number(out, n)?;
    print_bytes(out, b"\n")
}

// The three lines of a refusal.
pub fn print_refusal<W: Write>(out: &mut W, refusal: Refusal) -> io::Result<()>
    ensures bytes { OnOk result (Appends (W.contents out.old) (W.contents out.new) (refusal_lines refusal)) }
{
    let reason = tables::refusal::reason_number(refusal.reason);
    print_line(out, b"refused=", reason as u64)?;
    print_line(out, b"file=", refusal.file as u64)?;
    print_line(out, b"line=", refusal.line as u64)
}

// The part of a buffer that an answered call has filled.
pub fn print_text<W: Write>(out: &mut W, text: &[u8], count: usize) -> io::Result<()>
    ensures filled { count ≤ length text.now → OnOk result (Appends (W.contents out.old) (W.contents out.new) (take count text.now)) }
    ensures nothing { length text.now < count → Keeps (W.contents out.old) (W.contents out.new) }
{
    if count <= text.len() {
        print_bytes(out, &text[..count])
    } else {
        Ok(())
    }
}
