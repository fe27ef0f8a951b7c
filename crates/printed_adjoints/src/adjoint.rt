ghost use Rattle.std.specs.Prelude.{◌≡◌, ◌≤◌, ℕ, List, true, max};
ghost use Rattle.fl_ast.specs.declared.adjoint.Adjoint.{Adjoint};
ghost use Rattle.fl_ast.specs.AdjointTree.{adjoint_tree, astmt_trees};
ghost use Rattle.fl_ast.specs.ReadableAdjoint.{IsReadableAdjoint, deepest_in_adjoints};
ghost use Rattle.fl_printer.specs.Small.{are_small};
ghost use Rattle.fl_printer.specs.Text.{adjoint_text};
ghost use Rattle.printed_adjoints.specs.Adjoints.{IsReadBack};

/// The text that a readable adjoint is printed as is lexed, and its tokens are in the grammar of adjoints: as a text with the adjoint's
/// name, arguments and declarations, and with the forward and then the reverse part as its statements, line and loop numbers aside.
/// Expressions have 255 levels at most, since the target of `formad_pop` stands in a bracket of its own. What is in the grammar is what the
/// parser of adjoints gives. It does nothing.
pub fn printed_adjoints_are_read()
    ensures adjoints { (a : Adjoint) (text : List ℕ) → IsReadableAdjoint a → are_small a.decls ≡ true
        → max (deepest_in_adjoints (astmt_trees a.forward)) (deepest_in_adjoints (astmt_trees a.reverse)) ≤ 255
        → text ≡ adjoint_text (adjoint_tree a) → IsReadBack text (adjoint_tree a) }
{}
