ghost use Rattle.std.specs.Prelude.{◌≡◌, ◌≤◌, ◌+◌, List, true, length, map};
ghost use Rattle.std.specs.List.{list_all};
ghost use Rattle.fl_ast.specs.declared.decl.Decl.{Decl};
ghost use Rattle.fl_ast.specs.Readable.{is_readable_decl};
ghost use Rattle.parsing.specs.Reading.{Lexemes};
ghost use Rattle.fl_printer.specs.Rows.{decl_rows};
ghost use Rattle.fl_printer.specs.Lexemes.{unplaced, rows_lexemes};
ghost use Rattle.fl_printer.specs.Small.{are_small};
ghost use Rattle.printed_declarations.specs.Declared.{AreDeclared};

/// The tokens of the rows that readable declarations are printed as are in the grammar, within the limits of programs, behind any
/// declarations: as the same ones but for their lines. It does nothing.
pub fn printed_declarations_are_read()
    ensures declarations { (before ds : List Decl) (us : Lexemes) → list_all is_readable_decl ds ≡ true → are_small ds ≡ true
        → length before + length ds ≤ 512 → map unplaced us ≡ rows_lexemes (decl_rows ds) → AreDeclared before us ds }
{}
