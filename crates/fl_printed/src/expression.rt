ghost use Rattle.std.specs.Prelude.{◌≡◌, ◌≤◌, ◌+◌, ℕ, Bool, true, false, Some};
ghost use Rattle.fl_ast.specs.Tree.{Expression, Expressions, expression};
ghost use Rattle.fl_ast.specs.Measures.{depth, deepest};
ghost use Rattle.fl_ast.specs.Readable.{is_readable, are_readable};
ghost use Rattle.parsing.specs.Reading.{Lexemes};
ghost use Rattle.fl_expressions.specs.ExprGrammar as grammar;
ghost use Rattle.fl_printer.specs.Words.{expression_words, subscript_words, sum_words};
ghost use Rattle.fl_printed.specs.ReadBack.{AreOf, IsReadAs, AreReadAs};

/// Where so many brackets may open and a tree may have so many levels beneath its root, the tokens that a readable expression is printed
/// as are in the grammar, with a tree whose plain form is the expression. So are the value of an atomic update, and subscripts. It does nothing.
pub fn printed_expressions_are_read()
    ensures expressions { (e : Expression) (blank : Bool) (b d : ℕ) (us : Lexemes) → is_readable e ≡ true → depth e ≤ b + 1 → depth e ≤ d + 1
        → AreOf us (expression_words false blank e) → IsReadAs (grammar.expr b (Some d)) us e }
    ensures updates { (e : Expression) (blank : Bool) (b d : ℕ) (us : Lexemes) → is_readable e ≡ true → depth e ≤ b + 1 → depth e ≤ d + 1
        → AreOf us (sum_words false blank e) → IsReadAs (grammar.expr b (Some d)) us e }
    ensures subscripts { (e : Expression) (more : Expressions) (b d : ℕ) (us : Lexemes) → are_readable (expression e more) ≡ true
        → deepest (expression e more) ≤ b + 1 → deepest (expression e more) ≤ d + 1
        → AreOf us (subscript_words (expression e more)) → AreReadAs (grammar.subscripts true (grammar.below (b + 1)) (Some d)) us (expression e more) }
{}
