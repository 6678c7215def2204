// Files by name, for the programs: the one place where bytes come from outside.
#![tactic(auto)]

ghost use Rattle.std.specs.Prelude.{◌<◌, length, take};
ghost use Rattle.files.specs.Counts.{IsPrefixLen};
ghost use Rattle.std.specs.Io.KnownBytes.{Consumes};

use std::fs;
use std::io::Read;
use std::rt::Files;

// Reads until the buffer is full, the reader ends or a read fails, and answers how many bytes it put at the buffer's start: the reader's
// first ones, in their order.
fn read_full<R: Read>(reader: &mut R, buf: &mut [u8]) -> usize
    ensures counts { IsPrefixLen result buf.new }
    ensures bytes { Consumes (R.remaining reader.old) (R.remaining reader.new) (take result buf.new) }
{
    let mut done = 0;
    while done < buf.len() {
        let Ok(n) = reader.read(&mut buf[done..]) else {
            break;
        };
        if n == 0 {
            break;
        }
        done += n;
    }
    done
}

// The file's first bytes, as many as the buffer holds. The buffer has room for more bytes than any format allows (65,536), so that a
// file that is too long is known to be so without being read whole. A file that cannot be opened counts as empty (01), as does a name
// that is no UTF-8, which the library opens nothing by; where reading fails, what came before stays.
pub fn load<R: Files>(rt: &R, path: &[u8], buf: &mut [u8]) -> usize
    requires { 65536 < length buf.old }
    ensures counts { IsPrefixLen result buf.new }
{
    let Ok(name) = str::from_utf8(path) else {
        return 0;
    };
    let Ok(mut file) = fs::open(rt, name) else {
        return 0;
    };
    read_full(&mut file, buf)
}
