ghost use Rattle.transposition.specs.Answer.{ReverseIsTransposed};
ghost use Rattle.transposition.specs.Programs.{ProgramIsTransposed};
ghost use Rattle.transposition.specs.Typed.{WellKindedIsTyped};
ghost use Rattle.transposition.specs.Unstopped.{UnstoppedIsCalm};
ghost use Rattle.transposition.specs.Undone.{StatementsAreUndone};
ghost use Rattle.transposition.specs.Discipline.{IterationsAreDisciplined};

/// The reverse part of a calm run, on its tape and its final values, leaves at each place of the ring kind the adjoint that the
/// unit directions define, and restores the needed values.
pub fn reverse_is_transposed()
    ensures { ReverseIsTransposed }
{}

/// A run that ends, and whose first stop is its end, is calm: no two iterations of a parallel loop conflict. That the differentiated
/// reads of names with the choice Shared are at different places is a premise, which certificates show.
pub fn unstopped_is_calm()
    ensures { UnstoppedIsCalm }
{}

/// The reverse part of statements restores what their run changed, and keeps the pairing of adjoints with tangents.
pub fn statements_are_undone()
    ensures { StatementsAreUndone }
{}

/// The reverse iterations of a parallel loop, each alone from the cells at the loop's entry, are disciplined: so they can be made
/// in chunks and in any order.
pub fn iterations_are_disciplined()
    ensures { IterationsAreDisciplined }
{}

/// The reverse part of a program whose run nothing stops leaves the program's adjoints.
pub fn program_is_transposed()
    ensures { ProgramIsTransposed }
{}

/// A well-kinded expression meets what the law asks of kinds.
pub fn well_kinded_is_typed()
    ensures { WellKindedIsTyped }
{}
