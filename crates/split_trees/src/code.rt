use fl_base::Boxed;
use sweep_trees::{IndexCode, RingCode};

/// An expression of either kind.
#[derive(Drop)]
pub enum Code {
    Ring(Boxed<RingCode>),
    Index(Boxed<IndexCode>),
}
