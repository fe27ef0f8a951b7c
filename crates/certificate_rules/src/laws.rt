//! Laws on the definitions of certificates.

ghost use Rattle.certificate_rules.specs.Laws.{AcceptedIsDisjoint, TestsDecide, StatedIsAccepted};

/// An accepted derivation shows that its pair is disjoint: no valuation that respects what is known of the loop makes the subscripts of
/// the pair's two accesses the same in two different iterations. That a derivation is accepted is a test that computes.
pub fn accepted_is_disjoint()
    ensures disjoint { AcceptedIsDisjoint }
    ensures tests { TestsDecide }
{}

/// The derivation that is stated for a plain pair is accepted.
pub fn stated_is_accepted()
    ensures { StatedIsAccepted }
{}
