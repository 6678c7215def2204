// The monitor of one row in 64 cycles at once: whether it fails in one of them, and whether it is pending behind the last.
ghost use Rattle.std.specs.Prelude.{◌≡◌, Bool, ℕ, ◌*◌, ◌<◌};
ghost use Rattle.tables.specs.Bit.{bit_at, word_from};
ghost use Rattle.row_monitor.specs.Word.{MovesOf, some, word_report};

use crate::row::RowMonitor;
use tables::row::{BinaryKind, ConstantKind, Row, SignalKind, UnaryKind};
use tables::trace::Lane;

// What a row's monitor does in 64 cycles, a bit for each. Where the row is active: it fails, it is pending. Where it was pending one
// cycle earlier: it fails (drops), it stays pending (holds).
#[derive(Clone, Copy)]
pub struct Moves {
    pub fails: u64,
    pub waits: u64,
    pub drops: u64,
    pub holds: u64,
}

// Some bit is on.
fn any(word: u64) -> bool
    ensures word { (b : ℕ) (f : ℕ → Bool) → word ≡ word_from 64 b f → result ≡ some 64 b f }
{
    word != 0
}

// The first bit.
fn first(word: u64) -> bool
    ensures word { (b : ℕ) (f : ℕ → Bool) → word ≡ word_from 64 b f → result ≡ f b }
{
    word % 2 == 1
}

// A word of a lane.
fn word_of(lane: Lane, at: usize) -> u64
    requires { at < 4 }
    ensures answer { result ≡ word_from 64 (at * 64) (bit_at lane) }
{
    lane.words[at]
}

impl Moves {
    // A monitor that reads its activator alone.
    fn checks(fails: u64) -> Moves
        ensures answer { result ≡ record { fails = fails; waits = 0; drops = 0; holds = 0 } }
    {
        Moves {
            fails,
            waits: 0,
            drops: 0,
            holds: 0,
        }
    }

    // A monitor for which an activator and a pending are the same.
    fn goes(waits: u64, fails: u64) -> Moves
        ensures answer { result ≡ record { fails = fails; waits = waits; drops = fails; holds = waits } }
    {
        Moves {
            fails,
            waits,
            drops: fails,
            holds: waits,
        }
    }
}

fn unary_moves(kind: UnaryKind, a: u64) -> Moves
    ensures moves { (n k : ℕ) (f g : ℕ → Bool) → a ≡ word_from 64 k f → MovesOf (Row.Unary kind n) f g k result }
{
    match kind {
        UnaryKind::Not => Moves::checks(0),
        UnaryKind::Next => Moves {
            fails: 0,
            waits: u64::MAX,
            drops: !a,
            holds: 0,
        },
        UnaryKind::Always => Moves::goes(u64::MAX, !a),
        UnaryKind::Ever => Moves::goes(!a, 0),
    }
}

fn binary_moves(kind: BinaryKind, a: u64, b: u64) -> Moves
    ensures moves { (n m k : ℕ) (f g : ℕ → Bool) → a ≡ word_from 64 k f → b ≡ word_from 64 k g
        → MovesOf (Row.Binary kind n m) f g k result }
{
    match kind {
        BinaryKind::And => Moves::checks(!(a & b)),
        BinaryKind::Or => Moves::checks(!(a | b)),
        BinaryKind::Weak | BinaryKind::Until => Moves::goes(!b, !b & !a),
        BinaryKind::Release | BinaryKind::Srelease => Moves::goes(!a, !b),
    }
}

// The monitors' table, word by word; a and b are the words at the row's numbers.
fn row_moves(row: Row, a: u64, b: u64) -> Moves
    ensures moves { (k : ℕ) (f g : ℕ → Bool) → a ≡ word_from 64 k f → b ≡ word_from 64 k g → MovesOf row f g k result }
{
    match row {
        Row::Constant(ConstantKind::True) => Moves::checks(0),
        Row::Constant(ConstantKind::False) => Moves::checks(u64::MAX),
        Row::Signal(SignalKind::Sig, _) => Moves::checks(!a),
        Row::Signal(SignalKind::Nsig, _) => Moves::checks(a),
        Row::Unary(kind, _) => unary_moves(kind, a),
        Row::Binary(kind, _, _) => binary_moves(kind, a, b),
    }
}

// Whether the monitor is pending behind the word: `Ok` where nothing fails in it. (In an `Err` it does not count.) Each activation is
// followed forwards, all of them at once: it fails or stays where it does so, or is pending and a pending does so from the next cycle on.
pub fn monitor_word(monitor: &RowMonitor, at: usize, pending: bool) -> Result<bool, bool>
    requires { at < 4 }
    ensures answer { result ≡ word_report monitor.now (at * 64) pending }
{
    let active = word_of(monitor.active, at);
    let a = word_of(monitor.first, at);
    let b = word_of(monitor.second, at);
    let m = row_moves(monitor.row, a, b);
    let dropped = lanes::word::carry_from(m.holds, m.drops, 0);
    let held = lanes::word::carry_from(m.holds, 0, 1);
    let failing = m.fails | (m.waits & lanes::word::next_from(dropped, 0));
    let staying = m.waits & lanes::word::next_from(held, 1);
    let clean = !any(active & failing) & !(pending & first(dropped));
    let stays = any(active & staying) | (pending & first(held));
    clean.then_some(stays).ok_or(stays)
}
