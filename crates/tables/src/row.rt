// A row (01): a constant, a signal, one operand or two operands. What a kind means is said by its word in 01; the kinds that
// share a shape are an enum of their own, so that most of the code and of the proofs has four cases.

#[derive(Clone, Copy)]
pub enum ConstantKind {
    True,
    False,
}

// `sig`, and `nsig`: the signal negated.
#[derive(Clone, Copy)]
pub enum SignalKind {
    Sig,
    Nsig,
}

#[derive(Clone, Copy)]
pub enum UnaryKind {
    Not,
    Next,
    Always,
    Ever,
}

#[derive(Clone, Copy)]
pub enum BinaryKind {
    And,
    Or,
    Weak,
    Until,
    Release,
    Srelease,
}

// Signal and operand numbers count from 1; an operand is the number of an earlier row.
#[derive(Clone, Copy)]
pub enum Row {
    Constant(ConstantKind),
    Signal(SignalKind, u8),
    Unary(UnaryKind, u8),
    Binary(BinaryKind, u8, u8),
}

// A row place of a formula.
#[derive(Clone, Copy)]
pub struct RowPlace {
    pub row: Row,
}

// A formula (01: a rule in memory): its counts together with its 64 row places, the unused ones holding `true`. The last used
// place is the root.
#[derive(Clone, Copy)]
pub struct Formula {
    pub signals: u8,
    pub rows: u8,
    pub places: [RowPlace; 64],
}

// A formula in negation normal form (01: a normal form): no `not` rows, and up to 128 of them; the unused places hold `true`.
#[derive(Clone, Copy)]
pub struct NormalForm {
    pub signals: u8,
    pub rows: u8,
    pub places: [RowPlace; 128],
}
