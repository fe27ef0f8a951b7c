use fl_ast::{BinOp, Directive, Fun, Kind, RelOp};
use fl_base::{Boxed, Items};
use fl_types::IncrementForm;

/// An expression whose names are slots of a layout.
#[cycle(expr)]
#[derive(Drop)]
pub enum ResolvedExpr {
    Lit {
        word: u64,
        kind: Kind,
    },
    Get(ResolvedPlace),
    Neg(Boxed<ResolvedExpr>),
    Bin {
        op: BinOp,
        left: Boxed<ResolvedExpr>,
        right: Boxed<ResolvedExpr>,
    },
    Pow {
        base: Boxed<ResolvedExpr>,
        exponent: u32,
    },
    Call {
        fun: Fun,
        args: Items<ResolvedExpr>,
    },
}

/// An occurrence of the name of a slot.
#[cycle(expr)]
#[derive(Drop)]
pub struct ResolvedPlace {
    pub slot: usize,
    pub subscripts: Items<ResolvedExpr>,
}

/// A condition whose names are slots of a layout.
#[derive(Drop)]
pub enum ResolvedCond {
    Rel {
        op: RelOp,
        left: ResolvedExpr,
        right: ResolvedExpr,
    },
    Not(Boxed<ResolvedCond>),
    And(Boxed<ResolvedCond>, Boxed<ResolvedCond>),
    Or(Boxed<ResolvedCond>, Boxed<ResolvedCond>),
}

/// The variable and the bounds of a loop.
#[derive(Drop)]
pub struct ResolvedHead {
    pub variable: usize,
    pub first: ResolvedExpr,
    pub last: ResolvedExpr,
    pub step: Option<ResolvedExpr>,
}

/// A statement whose names are slots of a layout. The names of a directive stand as they are.
#[cycle(stmt)]
#[derive(Drop)]
pub enum ResolvedStmt {
    /// `form` tells how it adds to its target, where it is an increment.
    Assign {
        line: u32,
        atomic: bool,
        target: ResolvedPlace,
        value: ResolvedExpr,
        form: Option<IncrementForm>,
    },
    If {
        line: u32,
        arms: Items<ResolvedArm>,
        other: Items<ResolvedStmt>,
    },
    Do {
        line: u32,
        number: u32,
        directive: Option<Boxed<Directive>>,
        head: ResolvedHead,
        body: Items<ResolvedStmt>,
    },
}

/// A condition and the statements under it.
#[cycle(stmt)]
#[derive(Drop)]
pub struct ResolvedArm {
    pub test: ResolvedCond,
    pub body: Items<ResolvedStmt>,
}
