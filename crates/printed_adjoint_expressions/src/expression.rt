ghost use Rattle.std.specs.Prelude.{◌≡◌, ◌≤◌, ◌+◌, ℕ, Bool, true, false, Some};
ghost use Rattle.fl_ast.specs.AdjointTree.{AdjointExpression};
ghost use Rattle.fl_ast.specs.ReadableAdjoint.{is_readable_adjoint, adjoint_depth};
ghost use Rattle.parsing.specs.Reading.{Lexemes};
ghost use Rattle.adjoint_expressions.specs.AdjointGrammar.{adjoint_expr};
ghost use Rattle.fl_printer.specs.Words.{adjoint_words, adjoint_sum_words};
ghost use Rattle.printed_adjoint_expressions.specs.AdjointReadBack.{AreEachOf, IsAdjointReadAs};

/// Where so many brackets may open and a tree may have so many levels beneath its root, the tokens that a readable expression of an adjoint
/// is printed as are in the grammar, with a tree whose plain form is the expression. So is the value of an atomic update. It does nothing.
pub fn printed_adjoint_expressions_are_read()
    ensures expressions { (e : AdjointExpression) (blank : Bool) (b d : ℕ) (us : Lexemes) → is_readable_adjoint e ≡ true → adjoint_depth e ≤ b + 1 → adjoint_depth e ≤ d + 1
        → AreEachOf us (adjoint_words false blank e) → IsAdjointReadAs (adjoint_expr b (Some d)) us e }
    ensures updates { (e : AdjointExpression) (blank : Bool) (b d : ℕ) (us : Lexemes) → is_readable_adjoint e ≡ true → adjoint_depth e ≤ b + 1 → adjoint_depth e ≤ d + 1
        → AreEachOf us (adjoint_sum_words false blank e) → IsAdjointReadAs (adjoint_expr b (Some d)) us e }
{}
