use fl_base::{Items, Name};

/// Names, each once, in the order of their bytes.
#[derive(Drop)]
pub struct NameSet {
    pub names: Items<Name>,
}

/// How the adjoint of a name is incremented in the reverse of a parallel loop.
#[derive(Clone, Copy, Debug, PartialEq, Eq)]
pub enum Choice {
    /// No two iterations meet at a place: plain loads and stores.
    Shared,
    /// One atomic addition for each increment.
    Atomic,
    /// Each iteration adds its sum once.
    Reduction,
}

/// The choice for a name in a loop.
#[derive(Drop)]
pub struct Chosen {
    pub loop_number: u32,
    pub name: Name,
    pub choice: Choice,
}

/// Choices, by loop number and then by name.
#[derive(Drop)]
pub struct Choices {
    pub entries: Items<Chosen>,
}
