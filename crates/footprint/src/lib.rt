//! Conflicts of parallel loops, found by a table of who touched each place: no touch is kept, and none takes memory.
#![tactic(auto)]

mod footprint;
mod iterations;
mod toucher;

pub use footprint::Footprint;
