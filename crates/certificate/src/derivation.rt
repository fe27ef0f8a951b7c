//! Derivations as a certificate gives them.

use fl_base::Items;

/// A multiple of a line above.
#[derive(Clone, Copy)]
pub struct Multiple {
    pub multiplier: i32,
    pub line: u32,
}

/// A line of a derivation. Lines and differences are numbered from 1.
#[derive(Drop)]
pub enum Line {
    /// The pair's difference with a number.
    Hyp(u32),
    /// The sum of multiples of lines above.
    Comb(Items<Multiple>),
    /// Two elements of one index array, read by the accesses with these numbers, at equal subscripts.
    Cong {
        first: u32,
        second: u32,
        lines: Items<u32>,
    },
}

/// Why the lines can't all be 0.
#[derive(Drop)]
pub enum Close {
    Distinct { line: u32, second: Option<u32> },
    Residue(u32),
    Range(u32),
    Fact { number: u32, lines: Items<u32> },
}

#[derive(Drop)]
pub struct Derivation {
    pub lines: Items<Line>,
    pub close: Close,
}

/// What a `pair` line says, and where it stands: the number of the parallel loop, those of two of its accesses, and the line's number.
#[derive(Clone, Copy)]
pub struct Heading {
    pub line: usize,
    pub loop_number: u32,
    pub first: u32,
    pub second: u32,
}

/// A derivation for a pair.
#[derive(Drop)]
pub struct Given {
    pub heading: Heading,
    pub derivation: Derivation,
}
