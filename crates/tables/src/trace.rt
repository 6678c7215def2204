// Recordings and activation tables, one bit for each cycle.
ghost use Rattle.std.specs.Prelude.{◌≡◌, ◌+◌, ◌/◌, ◌%◌, ◌^◌, ◌<◌, get_or};
ghost use Rattle.tables.specs.Bit.{marked};

// A lane: what one signal or one row is at each of up to 256 cycles; cycle c is bit c % 64 of word c / 64. Unused bits are 0.
// Packed so that a take has 1 KB and a sheet 4 KB, and the layers above treat 64 cycles in one operation.
#[derive(Clone, Copy)]
pub struct Lane {
    pub words: [u64; 4],
}

// Where a trace goes on after its last cycle (01: `loop=`): nowhere, which makes it an open take, or at a cycle of its own.
#[derive(Clone, Copy)]
pub enum Ending {
    Open,
    Loop(u16),
}

// A trace (01: a take): a lane for each signal, signal 1 first.
#[derive(Clone, Copy)]
pub struct Trace {
    pub signals: u8,
    pub cycles: u16,
    pub ending: Ending,
    pub lanes: [Lane; 32],
}

// An activation table (01: a sheet): a lane for each row of a normal form, row 1 first.
#[derive(Clone, Copy)]
pub struct Activation {
    pub rows: u8,
    pub cycles: u16,
    pub lanes: [Lane; 128],
}

// 2 to the power of k, which a word can hold.
pub fn power_of_two(k: usize) -> u64
    requires { k < 64 }
    ensures answer { result ≡ 2 ^ k }
{
    1u64 << k
}

// The lane with one bit more. Each bit is set once only, so that a sum serves.
pub fn with_bit(lane: Lane, cycle: usize) -> Lane
    requires { (cycle < 256) × (get_or lane.words (cycle / 64) 0 + 2 ^ (cycle % 64) < 2 ^ 64) }
    ensures answer { result ≡ marked lane cycle }
{
    let mut words = lane.words;
    let at = cycle / 64;
    words[at] = words[at] + power_of_two(cycle % 64);
    Lane { words }
}
