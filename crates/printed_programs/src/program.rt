ghost use Rattle.std.specs.Prelude.{◌≡◌, ℕ, List, true};
ghost use Rattle.fl_ast.specs.declared.stmt.Program.{Program};
ghost use Rattle.fl_ast.specs.Tree.{program_tree};
ghost use Rattle.fl_ast.specs.Readable.{IsReadable};
ghost use Rattle.fl_printer.specs.Small.{are_small};
ghost use Rattle.fl_printer.specs.Text.{program_text};
ghost use Rattle.printed_programs.specs.Programs.{IsReadBack};

/// The text that a readable program is printed as is lexed, and its tokens are in the grammar of units, within the limits of programs: as
/// a program whose plain tree is the same but for its lines. What is in the grammar is what the parser gives. It does nothing.
pub fn printed_programs_are_read()
    ensures programs { (p : Program) (text : List ℕ) → IsReadable p → are_small p.decls ≡ true → text ≡ program_text (program_tree p)
        → IsReadBack text (program_tree p) }
{}
