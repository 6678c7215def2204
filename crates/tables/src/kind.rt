// The kinds of rows, once, as a table (01: "The words and their partners stand once as a table").
ghost use Rattle.std.specs.Prelude.{◌≡◌, ◌<◌};
ghost use Rattle.tables.specs.Kind.{dual_of, first_number, kind_at, kind_count, kinds, numbers_in, second_number, with_numbers};
ghost use Rattle.tables.specs.Kind.{binary_place, constant_place, place_of, signal_place, unary_place};

use crate::row::{BinaryKind, ConstantKind, Row, SignalKind, UnaryKind};

// A kind of row: its word, filled up with zeros, and the word's length; the row of this kind with its numbers left at 0;
// and the place of its partner under negation.
#[derive(Clone, Copy)]
pub struct Kind {
    pub word: [u8; 8],
    pub length: usize,
    pub row: Row,
    pub partner: usize,
}

// How many kinds there are.
pub const KIND_COUNT: usize = 14;

// `next` is its own partner. `not` has none in 01, since no normal form has such a row; its own place stands here, so that
// the table is its own inverse throughout.
const KINDS: [Kind; KIND_COUNT] = [
    Kind {
        word: *b"true\0\0\0\0",
        length: 4,
        row: Row::Constant(ConstantKind::True),
        partner: 1,
    },
    Kind {
        word: *b"false\0\0\0",
        length: 5,
        row: Row::Constant(ConstantKind::False),
        partner: 0,
    },
    Kind {
        word: *b"sig\0\0\0\0\0",
        length: 3,
        row: Row::Signal(SignalKind::Sig, 0),
        partner: 3,
    },
    Kind {
        word: *b"nsig\0\0\0\0",
        length: 4,
        row: Row::Signal(SignalKind::Nsig, 0),
        partner: 2,
    },
    Kind {
        word: *b"not\0\0\0\0\0",
        length: 3,
        row: Row::Unary(UnaryKind::Not, 0),
        partner: 4,
    },
    Kind {
        word: *b"and\0\0\0\0\0",
        length: 3,
        row: Row::Binary(BinaryKind::And, 0, 0),
        partner: 6,
    },
    Kind {
        word: *b"or\0\0\0\0\0\0",
        length: 2,
        row: Row::Binary(BinaryKind::Or, 0, 0),
        partner: 5,
    },
    Kind {
        word: *b"next\0\0\0\0",
        length: 4,
        row: Row::Unary(UnaryKind::Next, 0),
        partner: 7,
    },
    Kind {
        word: *b"always\0\0",
        length: 6,
        row: Row::Unary(UnaryKind::Always, 0),
        partner: 9,
    },
    Kind {
        word: *b"ever\0\0\0\0",
        length: 4,
        row: Row::Unary(UnaryKind::Ever, 0),
        partner: 8,
    },
    Kind {
        word: *b"weak\0\0\0\0",
        length: 4,
        row: Row::Binary(BinaryKind::Weak, 0, 0),
        partner: 13,
    },
    Kind {
        word: *b"until\0\0\0",
        length: 5,
        row: Row::Binary(BinaryKind::Until, 0, 0),
        partner: 12,
    },
    Kind {
        word: *b"release\0",
        length: 7,
        row: Row::Binary(BinaryKind::Release, 0, 0),
        partner: 11,
    },
    Kind {
        word: *b"srelease",
        length: 8,
        row: Row::Binary(BinaryKind::Srelease, 0, 0),
        partner: 10,
    },
];

// The table, for who looks at many of its places: the compiler stores it anew each time that it is indexed by a variable.
pub fn table() -> [Kind; KIND_COUNT]
    ensures answer { result ≡ kinds }
{
    KINDS
}

// The kind at a place of the table.
pub fn kind_at(place: usize) -> Kind
    requires { place < kind_count }
    ensures kind { result ≡ kind_at place }
{
    KINDS[place]
}

// How many numbers stand behind a row's word.
pub fn numbers_in(row: Row) -> usize
    ensures answer { result ≡ numbers_in row }
{
    match row {
        Row::Constant(_) => 0,
        Row::Signal(_, _) => 1,
        Row::Unary(_, _) => 1,
        Row::Binary(_, _, _) => 2,
    }
}

// The row of the same kind with these numbers.
pub fn with_numbers(row: Row, a: u8, b: u8) -> Row
    ensures answer { result ≡ with_numbers row a b }
{
    match row {
        Row::Constant(k) => Row::Constant(k),
        Row::Signal(k, _) => Row::Signal(k, a),
        Row::Unary(k, _) => Row::Unary(k, a),
        Row::Binary(k, _, _) => Row::Binary(k, a, b),
    }
}

// The first number behind a row's word, and the second; 0 where there is none.
pub fn first_number(row: Row) -> u8
    ensures answer { result ≡ first_number row }
{
    match row {
        Row::Constant(_) => 0,
        Row::Signal(_, s) => s,
        Row::Unary(_, a) => a,
        Row::Binary(_, a, _) => a,
    }
}

pub fn second_number(row: Row) -> u8
    ensures answer { result ≡ second_number row }
{
    match row {
        Row::Constant(_) => 0,
        Row::Signal(_, _) => 0,
        Row::Unary(_, _) => 0,
        Row::Binary(_, _, b) => b,
    }
}

// The place of a row's kind in the table, shape by shape.
fn constant_place(kind: ConstantKind) -> usize
    ensures place { (result ≡ constant_place kind) × (result < kind_count) }
{
    match kind {
        ConstantKind::True => 0,
        ConstantKind::False => 1,
    }
}

fn signal_place(kind: SignalKind) -> usize
    ensures place { (result ≡ signal_place kind) × (result < kind_count) }
{
    match kind {
        SignalKind::Sig => 2,
        SignalKind::Nsig => 3,
    }
}

fn unary_place(kind: UnaryKind) -> usize
    ensures place { (result ≡ unary_place kind) × (result < kind_count) }
{
    match kind {
        UnaryKind::Not => 4,
        UnaryKind::Next => 7,
        UnaryKind::Always => 8,
        UnaryKind::Ever => 9,
    }
}

fn binary_place(kind: BinaryKind) -> usize
    ensures place { (result ≡ binary_place kind) × (result < kind_count) }
{
    match kind {
        BinaryKind::And => 5,
        BinaryKind::Or => 6,
        BinaryKind::Weak => 10,
        BinaryKind::Until => 11,
        BinaryKind::Release => 12,
        BinaryKind::Srelease => 13,
    }
}

pub fn place_of(row: Row) -> usize
    ensures place { (result ≡ place_of row) × (result < kind_count) }
{
    match row {
        Row::Constant(kind) => constant_place(kind),
        Row::Signal(kind, _) => signal_place(kind),
        Row::Unary(kind, _) => unary_place(kind),
        Row::Binary(kind, _, _) => binary_place(kind),
    }
}

// The dual of a row: its partner under negation, with the same numbers.
pub fn dual(row: Row) -> Row
    ensures answer { result ≡ dual_of row }
{
    let kind = kind_at(place_of(row));
    let partner = kind_at(kind.partner);
    let other = partner.row;
    with_numbers(other, first_number(row), second_number(row))
}
