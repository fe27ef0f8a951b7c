//! Where values live: arguments' words, the places of a program, its stores, and the tape.
#![tactic(auto)]

mod bound;
mod declared;
mod fill;
mod iteration_tapes;
mod layout;
mod scope;
mod tape;
mod text;
mod values;

pub use bound::{Axis, declared_shape, size};
pub use cells::Store;
pub use declared::declaration;
pub use iteration_tapes::IterationTapes;
pub use layout::{Layout, LayoutError, Shape};
pub use tape::Tape;
pub use values::{Args, Direction, Entry, Weights};
