// A text that is ready goes into the lent buffer whole, or not at all: the one way in which every writer ends.
ghost use Rattle.std.specs.Prelude.{◌<◌, ◌≡◌};
ghost use Rattle.writing.specs.Answer.{Delivers, too_short};
ghost use Rattle.writing.specs.Refusal.{refusal_text};

use crate::answer::Bytes;
use tables::refusal::{Reason, Refusal};

// The answer where the lent buffer is shorter than the output: for writers that know their length and write in place.
pub fn too_short() -> Bytes
    ensures answer { result ≡ Bytes.Refused too_short }
{
    Bytes::Refused(Refusal {
        reason: Reason::ShortBuffer,
        file: 0,
        line: 0,
    })
}

pub fn deliver(text: &[u8], buf: &mut [u8]) -> Bytes
    ensures delivers { Delivers text.now buf.old buf.new result }
{
    if buf.len() < text.len() {
        return too_short();
    }
    let n = crate::put::put(buf, 0, text);
    Bytes::Count(n)
}

// The three lines of a refusal.
pub fn deliver_refusal(refusal: Refusal, buf: &mut [u8]) -> Bytes
    requires { refusal.line < 100000 }
    ensures delivers { Delivers (refusal_text refusal) buf.old buf.new result }
{
    let mut space = [0u8; 32];
    let n = crate::line::put_refusal(&mut space, 0, refusal);
    deliver(&space[..n], buf)
}
