ghost use Rattle.std.specs.Prelude.{◌≡◌, ◌≤◌, ◌&&◌, ℕ, Bool, true, false, map};
ghost use Rattle.fl_ast.specs.AdjointTree.{AdjointStatements};
ghost use Rattle.fl_ast.specs.ReadableAdjoint.{deepest_in_adjoints, block_depth_of_adjoints, are_readable_adjoint_statements, has_parallel_adjoints};
ghost use Rattle.parsing.specs.Reading.{Lexemes};
ghost use Rattle.adjoint_statements.specs.declared.block.Block.{Block};
ghost use Rattle.fl_printer.specs.Rows.{adjoint_block_rows};
ghost use Rattle.fl_printer.specs.Lexemes.{unplaced, rows_lexemes};
ghost use Rattle.printed_adjoint_blocks.specs.AdjointBlocks.{AreBlock};

/// The tokens of the rows that readable statements of an adjoint are printed as are in the grammar of adjoints, behind a block of any
/// statements: with statements whose plain trees are the same but for their lines and the numbers of their loops. Expressions have 255
/// levels at most, since the target of `formad_pop` stands in a bracket. It does nothing.
pub fn printed_adjoint_blocks_are_read()
    ensures blocks { (ss : AdjointStatements) (n margin : ℕ) (inside : Bool) (c : Block) (us : Lexemes) → are_readable_adjoint_statements ss ≡ true
        → deepest_in_adjoints ss ≤ 255 → block_depth_of_adjoints ss ≤ n → (inside && has_parallel_adjoints ss) ≡ false
        → map unplaced us ≡ rows_lexemes (adjoint_block_rows margin ss) → AreBlock n inside c us ss }
{}
