//! The law of pairs.

ghost use Rattle.pair_law.specs.Laws.{PairsAreKnown, RightsAreForAll};

/// The pairs of a name in a loop, each made by the numbers of two accesses, are the pairs of the name, in the same order, where it is known of
/// each access whether it is in such a right side; and so it is in each parallel loop of a program.
pub fn pairs_are_known()
    ensures pairs { PairsAreKnown }
    ensures rights { RightsAreForAll }
{}
