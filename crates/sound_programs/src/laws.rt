ghost use Rattle.sound_programs.specs.Accepted.{AcceptedIsTransposed, AskedNamesFit, InactiveIsZero, LayoutsFit, MadeChoicesFit, MadeIsTransposed, ParallelLoopsFit, PlacesSuffice, ProgramsAreSound};

/// What the law of transposition asks of the names of a program, statement by statement, holds of every accepted program: from typing,
/// from the active and the needed names, and from choices that fit. It does nothing.
pub fn programs_are_sound()
    ensures { ProgramsAreSound }
{}

/// The names that are asked by move, and of those that move the names that are asked of count: so a seed on these alone meets what the
/// law asks of seeds. It does nothing.
pub fn asked_names_fit()
    ensures { AskedNamesFit }
{}

/// The choices that are made where nothing is known of which iterations meet fit, and none of them is Shared. It does nothing.
pub fn made_choices_fit()
    ensures { MadeChoicesFit }
{}

/// The reverse part of an accepted program whose run nothing stops leaves the program's adjoints at the active names that are asked by,
/// where reads of names with the choice Shared are apart. It does nothing.
pub fn accepted_is_transposed()
    ensures { AcceptedIsTransposed }
{}

/// So with the choices that are made where nothing is known, without a premise on reads. It does nothing.
pub fn made_is_transposed()
    ensures { MadeIsTransposed }
{}

/// A name that is asked by and isn't active has the adjoint 0. It does nothing.
pub fn inactive_is_zero()
    ensures { InactiveIsZero }
{}

/// Variables of loops and private names of a typed program have places of their own behind those of the layout, and the other names have
/// theirs in it. It does nothing.
pub fn layouts_fit()
    ensures { LayoutsFit }
{}

/// No parallel loop of a typed program is in another, and each has a number of its own. It does nothing.
pub fn parallel_loops_fit()
    ensures { ParallelLoopsFit }
{}

/// Who has the words of all places of the layout has those of the needed names. It does nothing.
pub fn places_suffice()
    ensures { PlacesSuffice }
{}
