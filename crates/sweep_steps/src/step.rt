use fl_base::Items;
use fl_types::AccessKind;
use split_trees::Code;
use sweep_trees::{IndexCode, RingCode, Spot, TestCode};

/// A term of an increment.
#[derive(Drop)]
pub struct Term {
    pub minus: bool,
    pub value: RingCode,
}

/// An assignment.
#[derive(Drop)]
pub enum Store {
    /// `pushes` tells that the old content goes to the tape.
    Assign {
        line: u32,
        pushes: bool,
        target: Spot,
        value: Code,
    },
    /// An increment.
    Update {
        line: u32,
        kind: AccessKind,
        target: Spot,
        terms: Items<Term>,
    },
}

/// A loop's variable and bounds, at the loop's line.
#[derive(Drop)]
pub struct StepHead {
    pub line: u32,
    pub slot: usize,
    pub place: Option<u32>,
    pub first: IndexCode,
    pub last: IndexCode,
    pub step: Option<IndexCode>,
}

/// A private scalar of a parallel loop. `pushes` tells that an iteration leaves its word on the tape.
#[derive(Clone, Copy, Debug, PartialEq, Eq)]
pub struct PrivateScalar {
    pub slot: usize,
    pub place: Option<u32>,
    pub pushes: bool,
}

/// What is around a loop's body.
#[derive(Drop)]
pub enum Around {
    /// The turns of a sequential loop.
    Turns {
        head: StepHead,
    },
    /// The iterations of a parallel loop. `inner` is the head of the loop that is collapsed with it.
    Iterations {
        head: StepHead,
        inner: Option<StepHead>,
        privates: Items<PrivateScalar>,
    },
}

/// Statements by their flow, whatever stores, tests and heads of loops are.
#[cycle(flow)]
#[derive(Drop)]
pub enum Flow<S, T, H> {
    Store(S),
    If {
        line: u32,
        arms: Items<FlowArm<S, T, H>>,
        other: Items<Flow<S, T, H>>,
    },
    Loop {
        line: u32,
        head: H,
        body: Items<Flow<S, T, H>>,
    },
}

/// A condition and the statements under it.
#[cycle(flow)]
#[derive(Drop)]
pub struct FlowArm<S, T, H> {
    pub test: T,
    pub body: Items<Flow<S, T, H>>,
}

/// A statement of a sweep.
pub type Step = Flow<Store, TestCode, Around>;

/// An arm of a sweep's choice.
pub type StepArm = FlowArm<Store, TestCode, Around>;
