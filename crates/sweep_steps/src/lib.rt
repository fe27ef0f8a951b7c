//! Statements as sweeps run them: trees split by kind, with what the loops around them make of their names.
#![tactic(auto)]

mod step;

pub use step::{Around, Flow, FlowArm, PrivateScalar, Step, StepArm, StepHead, Store, Term};
