ghost use Rattle.std.specs.Prelude.{◌≡◌, ◌+◌, ◌≤◌, ◌^◌, ℕ, Bool, List, length, true, IfOk};
ghost use Rattle.fl_ast.specs.Tree.{program_tree, stmt_trees};
ghost use Rattle.fl_types.specs.Kinds.{declared_names, are_well_kinded_statements};
ghost use Rattle.store_core.specs.Keys.{keys_of};
ghost use Rattle.meaning.specs.Sites.{opening_site};
ghost use Rattle.meaning.specs.Statements.{run_all};
ghost use Rattle.resolved.specs.SlotTables.{names_of};
ghost use Rattle.resolved.specs.ResolvedStmts.{statements_back, are_fit};
ghost use Rattle.dual_meaning.specs.Runs.{Ends};

use crate::statements::{Progress, RunStop, run_statements};
use fl_ast::{Decl, Memory, Stmt};
use fl_base::Items;
use meaning::Value;
use resolved::{ResolveError, ResolvedStmt, SlotTable, resolve_statements};
use ring_core::Steps;
use std::alloc::Global;
use std::sync::ledger::Ledger;
use store_core::{Layout, LayoutError};

/// The most statement instances of a run.
const MOST: u32 = 16_777_216;

/// The names of a program, all of which have places.
pub(crate) fn table_of(alloc: Global, layout: &Layout, decls: &[Decl]) -> Result<SlotTable, Memory>
    requires { length (keys_of layout.now) + length decls.now ≤ 2 ^ 21 }
    ensures { IfOk result (λ table. table ≡ names_of layout.now decls.now) }
{
    match SlotTable::of(alloc, layout, decls) {
        Ok(table) => Ok(table),
        Err(LayoutError::Memory) => Err(Memory),
        Err(LayoutError::TooManyPlaces) => unreachable!(),
    }
}

/// The statements of a program whose kinds fit, so that all names have slots.
fn stmts_of(
    alloc: Global,
    layout: &Layout,
    decls: &[Decl],
    table: &SlotTable,
    body: &[Stmt],
) -> Result<Items<ResolvedStmt>, Memory>
    requires named { table.now ≡ names_of layout.now decls.now }
    requires kinded { are_well_kinded_statements (declared_names decls.now) (stmt_trees body.now) ≡ true }
    ensures { IfOk result (λ stmts. (statements_back table.now.0 stmts ≡ stmt_trees body.now) × (are_fit table.now stmts ≡ true)) }
{
    let _places = layout.count();
    match resolve_statements(alloc, table, body) {
        Ok(stmts) => Ok(stmts),
        Err(ResolveError::Memory) => Err(Memory),
        Err(ResolveError::Unplaced) => {
            let _declared = decls.len();
            unreachable!()
        }
    }
}

/// Runs a program's statements over its names, which are looked up already.
pub(crate) fn run_on<L: Ledger>(
    alloc: Global,
    table: &SlotTable,
    layout: &Layout,
    decls: &[Decl],
    body: &[Stmt],
    cells: Vec<Option<Value>>,
    steps: &mut Steps<L>,
) -> Result<Vec<Option<Value>>, RunStop>
    requires named { table.now ≡ names_of layout.now decls.now }
    requires kinded { are_well_kinded_statements (declared_names decls.now) (stmt_trees body.now) ≡ true }
    ensures { (pushed : List ℕ → Bool) → Ends (λ end. end.items) (run_all (stmt_trees body.now) (opening_site decls.now layout.now pushed) cells.items)
        result steps.old steps.new }
{
    let stmts = stmts_of(alloc, layout, decls, table, body)?;
    let mut progress = Progress { cells, left: MOST };
    match run_statements(alloc, table, &mut progress, steps, stmts.as_slice()) {
        Ok(()) => Ok(progress.cells),
        Err(stop) => Err(stop),
    }
}

/// Runs a program's statements over the cells of its layout and, after them, of the names that live in loops alone. It
/// ticks once for each statement instance.
pub fn run_program<L: Ledger>(
    alloc: Global,
    layout: &Layout,
    decls: &[Decl],
    body: &[Stmt],
    cells: Vec<Option<Value>>,
    steps: &mut Steps<L>,
) -> Result<Vec<Option<Value>>, RunStop>
    requires few { length (keys_of layout.now) + length decls.now ≤ 2 ^ 21 }
    requires kinded { are_well_kinded_statements (declared_names decls.now) (stmt_trees body.now) ≡ true }
    ensures { (pushed : List ℕ → Bool) → Ends (λ end. end.items) (run_all (stmt_trees body.now) (opening_site decls.now layout.now pushed) cells.items)
        result steps.old steps.new }
{
    let table = table_of(alloc, layout, decls)?;
    run_on(alloc, &table, layout, decls, body, cells, steps)
}
