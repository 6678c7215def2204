// The line that says where a trace goes on after its last cycle.
ghost use Rattle.std.specs.Prelude.{[], ◌≡◌, ◌+◌, ◌≤◌, length};
ghost use Rattle.tables.specs.Bytes.{bytes};
ghost use Rattle.text.specs.Written.{written_line};
ghost use Rattle.take_file.specs.Valid.{Below};
ghost use Rattle.take_file.specs.Written.{ending_text};
ghost use Rattle.writing.specs.Lent.{Wrote};

use tables::trace::Ending;
use writing::line::{put_number_line, put_text_line};

pub fn put_ending(buf: &mut [u8], at: usize, ending: Ending) -> usize
    requires { (at + 10 ≤ length buf.old) × Below 1000 ending }
    ensures text { Wrote buf.old at (written_line (bytes "loop") (ending_text ending) []) buf.new result }
    ensures room { result ≤ at + 10 }
{
    match ending {
        Ending::Open => put_text_line(buf, at, b"loop", b"none"),
        Ending::Loop(cycle) => put_number_line(buf, at, b"loop", cycle as u32),
    }
}

// How long its value is.
pub fn ending_length(ending: Ending) -> usize
    requires { Below 1000 ending }
    ensures length { result ≡ length (ending_text ending) }
{
    match ending {
        Ending::Open => 4,
        Ending::Loop(cycle) => writing::length::number_length(cycle as u32),
    }
}
