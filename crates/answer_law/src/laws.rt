ghost use Rattle.answer_law.specs.Answered.{MadeIsAnswered, ReadWordsAreSmall, SeedsAreAsked};

/// What the reverse sweep of an accepted program leaves, where nothing stops its forward sweep, is what is answered: at the active names
/// that are asked by the adjoint stands in the cells, and it is 0 at the others. It does nothing.
pub fn made_is_answered()
    ensures { MadeIsAnswered }
{}

/// The numbers of a data file or a seed file are words. It does nothing.
pub fn read_words_are_small()
    ensures { ReadWordsAreSmall }
{}

/// A seed file gives weights of no other names than those that are asked of. It does nothing.
pub fn seeds_are_asked()
    ensures { SeedsAreAsked }
{}
