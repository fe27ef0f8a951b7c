ghost use Rattle.std.specs.Prelude.{◌≡◌, ◌≤◌, ◌+◌, ℕ, Bool, true, false, Some};
ghost use Rattle.fl_ast.specs.Tree.{Condition};
ghost use Rattle.fl_ast.specs.Measures.{condition_depth};
ghost use Rattle.fl_ast.specs.Readable.{is_readable_condition};
ghost use Rattle.parsing.specs.Reading.{Lexemes};
ghost use Rattle.fl_conditions.specs.CondGrammar.{cond};
ghost use Rattle.fl_printer.specs.Words.{condition_words};
ghost use Rattle.fl_printed.specs.ReadBack.{AreOf};
ghost use Rattle.printed_conditions.specs.Conditions.{IsJudgedAs};

/// Where so many brackets may open and an operand of a relation may have so many levels beneath its root, the tokens that a readable
/// condition is printed as are in the grammar, with a tree whose plain form is the condition. It does nothing.
pub fn printed_conditions_are_read()
    ensures conditions { (c : Condition) (blank : Bool) (b d : ℕ) (us : Lexemes) → is_readable_condition c ≡ true → condition_depth c ≤ b + 2 → condition_depth c ≤ d + 2
        → AreOf us (condition_words false blank c) → IsJudgedAs (cond b (Some d)) us c }
{}
