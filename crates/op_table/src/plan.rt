ghost use Rattle.std.specs.Prelude.{ℕ, List};
ghost use Rattle.operations.specs.declared.op.Op.{Op};

/// A list of operations for each chunk. A value keeps what they are computed from, and no list.
pub trait Plan {
    ghost ops: { Self → ℕ → List Op };
}

/// What a table is made for.
#[derive(Drop)]
pub struct Key<P> {
    pub plan: P,
    pub words: Vec<u64>,
    pub chunks: u32,
    pub parts: u32,
}
