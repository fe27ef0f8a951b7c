//! Laws on the definitions of what is known of loops, and of runs.

ghost use Rattle.apart_law.specs.Apart.{LoopsAreApart, NumbersAreOwn, PairsAreValued};
ghost use Rattle.apart_law.specs.Numbers.{RangesHold};

/// Where each pair of a name in a loop is shown, no two iterations of an instance of the loop that ended without a conflict read the name at
/// one place for active names. It does nothing.
pub fn loops_are_apart()
    ensures { LoopsAreApart }
{}

/// The loops of a program that some text reads as have numbers of their own. It does nothing.
pub fn numbers_are_own()
    ensures { NumbersAreOwn }
{}

/// The variable of a loop with literal bounds lies in the loop's range in each turn. It does nothing.
pub fn ranges_hold()
    ensures { RangesHold }
{}

/// For any two accesses that different iterations of such an instance evaluate there is a valuation under which their forms are the subscripts
/// that they had, and which respects their pair. It does nothing.
pub fn pairs_are_valued()
    ensures { PairsAreValued }
{}
