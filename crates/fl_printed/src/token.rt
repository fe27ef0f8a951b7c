ghost use Rattle.std.specs.Prelude.{◌≡◌, ◌≤◌, ℕ, List, true, Some, codes};
ghost use Rattle.tokens.specs.Lexeme.{Lexeme};
ghost use Rattle.fl_ast.specs.declared.kind.Kind.{Kind};
ghost use Rattle.fl_ast.specs.declared.expr.Expr.TheVariants.{Lit};
ghost use Rattle.fl_ast.specs.Readable.{is_variable};
ghost use Rattle.parsing.specs.declared.cursor.Number.{Number};
ghost use Rattle.parsing.specs.declared.symbol.Symbol.TheVariants as symbols;
ghost use Rattle.parsing.specs.Terminal as terminal;
ghost use Rattle.fl_expressions.specs.Trees.{literal};
ghost use Rattle.fl_printer.specs.Words.{literal_text};
ghost use Rattle.fl_printed.specs.Fits.{Fits};

/// A printed name, literal or sign of an expression is read as itself; it does nothing.
pub fn printed_tokens_are_read()
    ensures names { (t : Lexeme) (x : List ℕ) → is_variable x ≡ true → Fits t x → terminal.name t ≡ Some (record { line = t.line; name = x }) }
    ensures literals { (t : Lexeme) (n : ℕ) (k : Kind) → n ≤ 9223372036854775807 → Fits t (literal_text n k)
        → (x : Number) × (terminal.number t ≡ Some x) × (literal x ≡ record { expr = Lit n k; depth = 1 }) }
    ensures opens { (t : Lexeme) → Fits t (codes "(") → terminal.marked symbols.Open t ≡ Some t.line }
    ensures closes { (t : Lexeme) → Fits t (codes ")") → terminal.marked symbols.Close t ≡ Some t.line }
    ensures commas { (t : Lexeme) → Fits t (codes ",") → terminal.marked symbols.Comma t ≡ Some t.line }
    ensures minuses { (t : Lexeme) → Fits t (codes "-") → terminal.marked symbols.Minus t ≡ Some t.line }
    ensures powers { (t : Lexeme) → Fits t (codes "**") → terminal.marked symbols.Power t ≡ Some t.line }
{}
