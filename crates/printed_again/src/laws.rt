ghost use Rattle.printed_again.specs.Again.{AskedAdjointsArePrintedAgain, ReadProgramsArePrintedAgain};

/// Any program that a text was parsed to is printed as a text that the lexer takes and the parser gives this program of, line numbers
/// aside; and that program is printed as the same bytes. It does nothing.
pub fn read_programs_are_printed_again()
    ensures { ReadProgramsArePrintedAgain }
{}

/// The adjoint of any typed program that a text was parsed to, of any names by any names, is printed as a text that the lexer takes
/// and the parser of adjoints gives this adjoint of, line and loop numbers aside; and what it gives is printed as the same bytes, its
/// statements being those of one part. It does nothing.
pub fn asked_adjoints_are_printed_again()
    ensures { AskedAdjointsArePrintedAgain }
{}
