//! The loops of a program with their heads, the scenes by which the forms of a parallel loop's accesses are made, and which of its accesses are
//! in right sides of assignments to active names.
#![tactic(auto)]

mod headed;
mod inner;
mod literals;
mod marks;
mod names;
mod right_sides;
mod scene;

pub use headed::{HeadedView, all_loops};
pub use inner::{InnerHead, further_head};
pub use literals::last_turn_of;
pub use right_sides::rights;
pub use scene::scene_of;
