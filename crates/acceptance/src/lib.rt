//! Whether derivations are accepted.
#![tactic(auto)]

mod combination;
mod congruence;
mod derivation;
mod distinct;
mod fact;
mod knowledge;
mod line_form;
mod range;
mod residue;

pub use congruence::{Element, element_at, reads_apart};
pub use derivation::accept;
pub use distinct::{is_distinct, is_second_distinct};
pub use fact::serves_pair;
pub use knowledge::{LoopKnowledge, numbered};
pub use line_form::is_same;
pub use range::range_holds;
pub use residue::has_residue;
