//! Statements as reverse sweeps undo them: trees split by kind, with the places and choices that they need.
#![tactic(auto)]

mod undo;

pub use undo::{Factor, Growth, Undo, UndoArm, UndoAround, UndoStep, Variables};
