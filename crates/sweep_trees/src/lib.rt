//! Trees as sweeps run them: names are slots, expressions of the two kinds are apart, and scalars are told by their places.
#![tactic(auto)]

mod code;

pub use code::{IndexCode, RingCode, RingOp, Spot, TestCode};
