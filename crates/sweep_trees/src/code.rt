use fl_ast::{BinOp, RelOp};
use fl_base::{Boxed, Items};

/// An occurrence of the name of a slot. `accessed` tells whether its evaluation touches the place.
#[cycle(code)]
#[derive(Drop)]
pub enum Spot {
    /// A scalar, at its place.
    Scalar {
        slot: usize,
        place: u32,
        accessed: bool,
    },
    /// An element of an array of rank 1.
    Element {
        slot: usize,
        accessed: bool,
        subscript: Boxed<IndexCode>,
    },
    /// An element of an array of any rank.
    Elements {
        slot: usize,
        accessed: bool,
        subscripts: Items<IndexCode>,
    },
}

/// An expression of the index kind.
#[cycle(code)]
#[derive(Drop)]
pub enum IndexCode {
    Number(i32),
    Get(Spot),
    Negated(Boxed<IndexCode>),
    Binary {
        op: BinOp,
        left: Boxed<IndexCode>,
        right: Boxed<IndexCode>,
    },
    Power {
        base: Boxed<IndexCode>,
        exponent: u32,
    },
    Larger(Boxed<IndexCode>, Boxed<IndexCode>),
    Smaller(Boxed<IndexCode>, Boxed<IndexCode>),
    Remainder(Boxed<IndexCode>, Boxed<IndexCode>),
    Absolute(Boxed<IndexCode>),
}

/// An operation on data, which is never divided.
#[derive(Clone, Copy, Debug, PartialEq, Eq)]
pub enum RingOp {
    Add,
    Sub,
    Mul,
}

/// An expression of the ring kind, or one of the index kind that is made one.
#[derive(Drop)]
pub enum RingCode {
    Word(u64),
    Get(Spot),
    Widened(IndexCode),
    Negated(Boxed<RingCode>),
    Binary {
        op: RingOp,
        left: Boxed<RingCode>,
        right: Boxed<RingCode>,
    },
    Power {
        base: Boxed<RingCode>,
        exponent: u32,
    },
    Larger(Boxed<RingCode>, Boxed<RingCode>),
    Smaller(Boxed<RingCode>, Boxed<RingCode>),
    Absolute(Boxed<RingCode>),
}

/// A condition. Numbers of the index kind are compared as they are, all else at the width of data.
#[derive(Drop)]
pub enum TestCode {
    Indices {
        op: RelOp,
        left: IndexCode,
        right: IndexCode,
    },
    Rings {
        op: RelOp,
        left: RingCode,
        right: RingCode,
    },
    Not(Boxed<TestCode>),
    And(Boxed<TestCode>, Boxed<TestCode>),
    Or(Boxed<TestCode>, Boxed<TestCode>),
}
