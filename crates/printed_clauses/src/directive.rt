ghost use Rattle.std.specs.Prelude.{◌≡◌, ◌++◌, ◌∷◌, [], ℕ, true, map};
ghost use Rattle.fl_ast.specs.declared.directive.Directive.{Directive};
ghost use Rattle.fl_ast.specs.Readable.{has_readable_clauses};
ghost use Rattle.parsing.specs.Reading.{Lexemes};
ghost use Rattle.omp_clauses.specs.LineGrammar.{parallel_do};
ghost use Rattle.fl_printer.specs.Rows.{parallel_words};
ghost use Rattle.fl_printer.specs.Lexemes.{unplaced, words_lexemes, end_lexeme};
ghost use Rattle.printed_clauses.specs.Placed.{at_line};

/// The tokens that a readable directive is printed as, with the end of their line, are in the grammar behind a sentinel in any line, as
/// the directive at that line. It does nothing.
pub fn printed_directives_are_read()
    ensures directives { (d : Directive) (line : ℕ) (us : Lexemes) → has_readable_clauses d ≡ true
        → map unplaced us ≡ words_lexemes (parallel_words d) ++ end_lexeme ∷ [] → parallel_do true line (at_line d line) us }
{}
