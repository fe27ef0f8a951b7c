//! Forms of subscripts: a constant and multiples of atoms.
#![tactic(auto)]

mod comparison;
mod difference;
mod form;
mod increments;
mod known;
mod linear;
mod nodes;
mod origin;
mod reads;
mod row;
mod scalar;
mod scene;
mod sum;
mod walk;
mod written;

pub use comparison::forms_order;
pub use difference::{Extent, FormSum, subtract};
pub use form::{Atom, Form, Side};
pub use linear::{constant_form, form_of_atom};
pub use scene::{Counter, Scene};
pub use sum::{exact_sum, product};
pub use walk::forms_of_accesses;
