ghost use Rattle.std.specs.Prelude.{◌≡◌, ◌≤◌, ◌++◌, ◌∷◌, [], ℕ, Bool, List, Option, true, false, map, codes};
ghost use Rattle.fl_ast.specs.Tree.{Expression, Designator, Condition};
ghost use Rattle.fl_ast.specs.Measures.{depth, deepest, condition_depth, step_depth};
ghost use Rattle.fl_ast.specs.Readable.{is_variable, is_readable, are_readable, is_readable_condition, is_readable_step};
ghost use Rattle.parsing.specs.Reading.{Lexemes};
ghost use Rattle.fl_statements.specs.declared.block.Block.{Block};
ghost use Rattle.fl_printer.specs.Words.{apart, joined, condition_words};
ghost use Rattle.fl_printer.specs.Rows.{assign_words, variable_words, bounds_words};
ghost use Rattle.fl_printer.specs.Lexemes.{unplaced, words_lexemes, end_lexeme};
ghost use Rattle.fl_printed.specs.ReadBack.{AreOf};
ghost use Rattle.printed_statements.specs.Lines.{IsAssigned, HasLoopLine, IsGuard};

/// The tokens of a readable assignment, of the first line of a readable loop and of a readable test in its brackets are in the grammar,
/// within the limits of programs, with trees whose plain forms are the same. It does nothing.
pub fn printed_lines_are_read()
    ensures assignments { (atomic : Bool) (target : Designator) (value : Expression) (c : Block) (us : Lexemes) → is_variable target.name ≡ true
        → are_readable target.subscripts ≡ true → is_readable value ≡ true → deepest target.subscripts ≤ 64 → depth value ≤ 64
        → map unplaced us ≡ words_lexemes (assign_words atomic target value) ++ end_lexeme ∷ [] → IsAssigned atomic c us target value }
    ensures loops { (var : List ℕ) (first last : Expression) (step : Option Expression) (us : Lexemes) → is_variable var ≡ true
        → is_readable first ≡ true → is_readable last ≡ true → is_readable_step step ≡ true → depth first ≤ 64 → depth last ≤ 64 → step_depth step ≤ 64
        → map unplaced us ≡ words_lexemes (variable_words var ++ bounds_words first last step) ++ end_lexeme ∷ [] → HasLoopLine us var first last step }
    ensures guards { (test : Condition) (us : Lexemes) → is_readable_condition test ≡ true → condition_depth test ≤ 64
        → AreOf us (apart (codes "(") ∷ (condition_words false false test ++ joined (codes ")") ∷ [])) → IsGuard us test }
{}
