//! How much is read.

ghost use Rattle.std.specs.Prelude.{◌≡◌, None};

use fl_statements::Limits;

/// The limits on an adjoint's text: brackets that may be open at once, levels of a tree, blocks that stand in each other.
/// Statements and names have none.
#[derive(Clone, Copy, Debug, PartialEq, Eq)]
pub struct Room {
    pub brackets: usize,
    pub depth: usize,
    pub blocks: usize,
}

pub const ADJOINT: Room = Room {
    brackets: 256,
    depth: 256,
    blocks: 256,
};

impl Room {
    /// The same limits for the rules of programs that read no statements and so look at no number of them.
    pub fn limits(self) -> Limits
        ensures { result ≡ record { brackets = self.brackets; depth = self.depth; blocks = self.blocks; statements = 0; names = None } }
    {
        Limits {
            brackets: self.brackets,
            depth: self.depth,
            blocks: self.blocks,
            statements: 0,
            names: None,
        }
    }
}
