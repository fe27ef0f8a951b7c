//! How much is read.

ghost use Rattle.std.specs.Prelude.{◌≡◌, ◌+◌};
ghost use Rattle.parsing.specs.Limit.{allows};
ghost use Rattle.fl_statements.specs.Limits.{limits_of};

/// The limits on a text: brackets that may be open at once, levels of a tree, blocks that stand in each other, statements
/// of a unit, names that it declares.
#[derive(Clone, Copy, Debug, PartialEq, Eq)]
pub struct Limits {
    pub brackets: usize,
    pub depth: usize,
    pub blocks: usize,
    pub statements: usize,
    pub names: Option<usize>,
}

/// The limits on a program.
pub const PROGRAM: Limits = Limits {
    brackets: 256,
    depth: 64,
    blocks: 64,
    statements: 4096,
    names: Some(512),
};

/// Whether one more than so many are within the limit.
pub fn has_room(limit: Option<usize>, count: usize) -> bool
    ensures { result ≡ allows limit (count + 1) }
{
    match limit {
        Some(most) => count < most,
        None => true,
    }
}

/// Whether one more statement than so many is within the limits.
pub fn fits(limits: Limits, count: usize) -> bool
    ensures { result ≡ allows (limits_of limits).statements (count + 1) }
{
    count < limits.statements
}
