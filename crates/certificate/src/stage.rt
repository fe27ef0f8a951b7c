use crate::derivation::{Derivation, Heading, Line};
use fl_base::Items;

/// What may come next.
#[derive(Drop)]
pub enum Stage {
    /// The line of the format.
    Opening,
    /// A pair, or the end of the text.
    Between,
    /// A line or the close of a derivation.
    Inside(Heading, Items<Line>),
    /// The end of a derivation.
    Closed(Heading, Derivation),
}
