ghost use Rattle.std.specs.Prelude.{◌≡◌, ◌≤◌, ◌+◌, ◌&&◌, ℕ, suc, Bool, true, false, map};
ghost use Rattle.fl_ast.specs.Tree.{Statements};
ghost use Rattle.fl_ast.specs.Measures.{deepest_in_all, block_depth_of_all, count_all, loop_numbers_of_all};
ghost use Rattle.fl_ast.specs.Readable.{are_readable_statements, has_parallel_in, counts_up_from};
ghost use Rattle.parsing.specs.Reading.{Lexemes};
ghost use Rattle.fl_statements.specs.declared.block.Block.{Block};
ghost use Rattle.fl_printer.specs.Rows.{block_rows};
ghost use Rattle.fl_printer.specs.Lexemes.{unplaced, rows_lexemes};
ghost use Rattle.printed_blocks.specs.Blocks.{AreBlock};

/// The tokens of the rows that readable statements are printed as are in the grammar, within the limits of programs, behind a block of
/// any statements: with statements whose plain trees are the same but for their lines. It does nothing.
pub fn printed_blocks_are_read()
    ensures blocks { (ss : Statements) (n margin : ℕ) (inside : Bool) (c : Block) (us : Lexemes) → are_readable_statements ss ≡ true
        → deepest_in_all ss ≤ 64 → block_depth_of_all ss ≤ n → c.count + count_all ss ≤ 4096
        → counts_up_from (suc c.loops) (loop_numbers_of_all ss) ≡ true → (inside && has_parallel_in ss) ≡ false
        → map unplaced us ≡ rows_lexemes (block_rows margin ss) → AreBlock n inside c us ss }
{}
