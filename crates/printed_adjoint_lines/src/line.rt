ghost use Rattle.std.specs.Prelude.{◌≡◌, ◌≤◌, ◌++◌, ◌∷◌, [], ℕ, Bool, List, Option, true, false, map, codes};
ghost use Rattle.fl_ast.specs.Tree.{Expression, Designator, Condition};
ghost use Rattle.fl_ast.specs.AdjointTree.{AdjointExpression};
ghost use Rattle.fl_ast.specs.Measures.{depth, deepest, condition_depth, step_depth};
ghost use Rattle.fl_ast.specs.Readable.{is_variable, is_readable, are_readable, is_readable_condition, is_readable_step};
ghost use Rattle.fl_ast.specs.ReadableAdjoint.{is_readable_adjoint, adjoint_depth};
ghost use Rattle.parsing.specs.Reading.{Lexemes};
ghost use Rattle.adjoint_statements.specs.declared.block.Block.{Block};
ghost use Rattle.fl_printer.specs.Words.{apart, joined, condition_words};
ghost use Rattle.fl_printer.specs.Rows.{adjoint_assign_words, push_words, pop_words, open_words, call_words, close_bracket, variable_words, bounds_words};
ghost use Rattle.fl_printer.specs.Lexemes.{unplaced, words_lexemes, end_lexeme};
ghost use Rattle.fl_printed.specs.ReadBack.{AreOf};
ghost use Rattle.printed_adjoint_lines.specs.AdjointLines.{IsAssigned, IsPushed, IsPopped, IsBegun, IsFinished, HasLoopLine, IsGuard};

/// The tokens of a readable assignment of an adjoint, of the calls of its tape, of the first line of a readable loop and of a readable test
/// in its brackets are in the grammar of adjoints, with trees whose plain forms are the same. Behind the bracket of a call one bracket less
/// may open, so the target of `formad_pop` has 255 levels at most. It does nothing.
pub fn printed_adjoint_lines_are_read()
    ensures assignments { (atomic : Bool) (target : Designator) (value : AdjointExpression) (c : Block) (us : Lexemes) → is_variable target.name ≡ true
        → are_readable target.subscripts ≡ true → is_readable_adjoint value ≡ true → deepest target.subscripts ≤ 256 → adjoint_depth value ≤ 256
        → map unplaced us ≡ words_lexemes (adjoint_assign_words atomic target value) ++ end_lexeme ∷ [] → IsAssigned atomic c us target value }
    ensures pushes { (key value : Expression) (c : Block) (us : Lexemes) → is_readable key ≡ true → is_readable value ≡ true → depth key ≤ 256 → depth value ≤ 256
        → map unplaced us ≡ words_lexemes (push_words key value) ++ end_lexeme ∷ [] → IsPushed c us key value }
    ensures pops { (key : Expression) (target : Designator) (c : Block) (us : Lexemes) → is_readable key ≡ true → is_variable target.name ≡ true
        → are_readable target.subscripts ≡ true → depth key ≤ 256 → deepest target.subscripts ≤ 255
        → map unplaced us ≡ words_lexemes (pop_words key target) ++ end_lexeme ∷ [] → IsPopped c us key target }
    ensures openings { (count : Expression) (c : Block) (us : Lexemes) → is_readable count ≡ true → depth count ≤ 256
        → map unplaced us ≡ words_lexemes (open_words count) ++ end_lexeme ∷ [] → IsBegun c us count }
    ensures closings { (c : Block) (us : Lexemes) → map unplaced us ≡ words_lexemes (call_words (codes "formad_close") ++ close_bracket) ++ end_lexeme ∷ [] → IsFinished c us }
    ensures loops { (var : List ℕ) (first last : Expression) (step : Option Expression) (us : Lexemes) → is_variable var ≡ true
        → is_readable first ≡ true → is_readable last ≡ true → is_readable_step step ≡ true → depth first ≤ 256 → depth last ≤ 256 → step_depth step ≤ 256
        → map unplaced us ≡ words_lexemes (variable_words var ++ bounds_words first last step) ++ end_lexeme ∷ [] → HasLoopLine us var first last step }
    ensures guards { (test : Condition) (us : Lexemes) → is_readable_condition test ≡ true → condition_depth test ≤ 256
        → AreOf us (apart (codes "(") ∷ (condition_words false false test ++ joined (codes ")") ∷ [])) → IsGuard us test }
{}
