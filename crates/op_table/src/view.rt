use std::collections::LinkedList;

/// What a seat knows: the chunks that it holds, each with its position, the chunks that it found claimed, and its parts. It
/// exists in proofs alone.
pub struct View {
    pub held: LinkedList<(u32, u64)>,
    pub found: LinkedList<u32>,
    pub parts: u32,
}
