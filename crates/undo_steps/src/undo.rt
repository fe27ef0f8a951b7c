use fl_base::Items;
use fl_types::Choice;
use sweep_steps::{Flow, FlowArm, PrivateScalar, Term};
use sweep_trees::{RingCode, Spot, TestCode};

/// A factor by which an adjoint grows.
#[derive(Drop)]
pub enum Factor {
    /// An expression of the program.
    Operand(RingCode),
    /// One number where the test holds, else the other.
    Either {
        one: u64,
        other: u64,
        test: TestCode,
    },
}

/// The increment of one adjoint, for one occurrence of its name on a right side.
#[derive(Drop)]
pub struct Growth {
    pub place: Spot,
    pub negative: bool,
    pub choice: Choice,
    pub factors: Items<Factor>,
}

/// What undoes an assignment. `growths` stand where the target has an adjoint.
#[derive(Drop)]
pub enum Undo {
    /// `restores` tells that the old content is on the tape.
    Plain {
        target: Spot,
        restores: bool,
        growths: Option<Items<Growth>>,
    },
    /// An increment. `reversal` has its terms where the target's value is needed, and `one_step` tells how they are
    /// taken back.
    Increment {
        target: Spot,
        reversal: Option<Items<Term>>,
        one_step: bool,
        growths: Option<Items<Growth>>,
    },
}

/// The places of the variables of the loops whose iterations are those of a parallel loop.
#[derive(Clone, Copy, Debug, PartialEq, Eq)]
pub enum Variables {
    One {
        place: Option<u32>,
    },
    Two {
        outer: Option<u32>,
        inner: Option<u32>,
    },
}

/// What is around a loop's body.
#[derive(Drop)]
pub enum UndoAround {
    /// The turns of a sequential loop, with the place of its variable.
    Turns {
        place: Option<u32>,
    },
    /// The iterations of a parallel loop. `reductions` are the places whose adjoints each iteration adds to once, in the
    /// order of the declarations.
    Iterations {
        variables: Variables,
        privates: Items<PrivateScalar>,
        reductions: Items<u32>,
    },
}

/// A statement of a reverse sweep. An arm is chosen by the number on the tape.
pub type UndoStep = Flow<Undo, (), UndoAround>;

/// An arm of a choice.
pub type UndoArm = FlowArm<Undo, (), UndoAround>;
