ghost use Rattle.std.specs.Prelude.{◌≡◌, ◌+◌, ◌≤◌, ◌^◌, ℕ, Bool, List, length, map, true, IfOk};
ghost use Rattle.fl_ast.specs.Tree.{program_tree, stmt_trees};
ghost use Rattle.fl_types.specs.Kinds.{declared_names, are_well_kinded_statements};
ghost use Rattle.fl_types.specs.Sharing.{has_name as has_name_lem};
ghost use Rattle.store_core.specs.declared.layout.Shape.{Shape as LaidShape};
ghost use Rattle.store_core.specs.Keys.{keys_of};
ghost use Rattle.store_core.specs.Places.{shapes_of};
ghost use Rattle.store_core.specs.Filled.{place_words};
ghost use Rattle.meaning.specs.Sites.{opening_site};
ghost use Rattle.meaning.specs.Fitting.{IsWellKinded};
ghost use Rattle.meaning.specs.Programs.{no_pushes};
ghost use Rattle.resolved.specs.SlotTables.{names_of};
ghost use Rattle.resolved.specs.ResolvedStmts.{statements_back, are_fit};
ghost use Rattle.sweep_steps.specs.Steps.{step_trees};
ghost use Rattle.sweep_steps.specs.StepsStand.{AllStand};
ghost use Rattle.forward_run.specs.Swept.{IsOpened};

use crate::entry::{has_name, opening_cells};
use fl_ast::{Decl, Name, Stmt};
use fl_base::{Items, Memory};
use fl_types::Typed;
use made_steps::steps_of;
use meaning::Value;
use resolved::{ResolveError, ResolvedStmt, SlotTable, resolve_statements};
use std::alloc::Global;
use store_core::{Args, Layout, LayoutError};
use sweep_steps::Step;

/// A program at its opening: its names, the contents of their places, and its statements as sweeps run them.
#[derive(Drop)]
pub struct Opened {
    pub table: SlotTable,
    pub cells: Vec<Option<Value>>,
    pub body: Items<Step>,
}

/// The names of a program, all of which have places.
pub fn table_of(alloc: Global, layout: &Layout, decls: &[Decl]) -> Result<SlotTable, Memory>
    requires { length (keys_of layout.now) + length decls.now ≤ 2 ^ 21 }
    ensures { IfOk result (λ table. table ≡ names_of layout.now decls.now) }
{
    match SlotTable::of(alloc, layout, decls) {
        Ok(table) => Ok(table),
        Err(LayoutError::Memory) => Err(Memory),
        Err(LayoutError::TooManyPlaces) => unreachable!(),
    }
}

/// The statements of a program whose kinds fit, so that all names have slots.
pub fn stmts_of(
    alloc: Global,
    layout: &Layout,
    decls: &[Decl],
    table: &SlotTable,
    body: &[Stmt],
) -> Result<Items<ResolvedStmt>, Memory>
    requires named { table.now ≡ names_of layout.now decls.now }
    requires kinded { are_well_kinded_statements (declared_names decls.now) (stmt_trees body.now) ≡ true }
    ensures { IfOk result (λ stmts. (statements_back table.now.0 stmts ≡ stmt_trees body.now) × (are_fit table.now stmts ≡ true)) }
{
    let _places = layout.count();
    match resolve_statements(alloc, table, body) {
        Ok(stmts) => Ok(stmts),
        Err(ResolveError::Memory) => Err(Memory),
        Err(ResolveError::Unplaced) => {
            let _declared = decls.len();
            unreachable!()
        }
    }
}

/// By slot whether a name is one of these.
pub fn marks_of(alloc: Global, table: &SlotTable, names: &[Name]) -> Result<Items<bool>, Memory>
    ensures { IfOk result (λ marks. marks ≡ map (λ (s : LaidShape). has_name_lem s.name names.now) table.now.0) }
{
    let mut marks = Items::new(alloc);
    for shape in table.layout().shapes() {
        marks.push(has_name(names, &shape.name))?;
    }
    Ok(marks)
}

/// The statements of a sweep that pushes the old contents of these names.
fn body_of(
    alloc: Global,
    layout: &Layout,
    decls: &[Decl],
    table: &SlotTable,
    body: &[Stmt],
    pushed: &[Name],
) -> Result<Items<Step>, Memory>
    requires named { table.now ≡ names_of layout.now decls.now }
    requires kinded { are_well_kinded_statements (declared_names decls.now) (stmt_trees body.now) ≡ true }
    requires well { IsWellKinded (opening_site decls.now layout.now no_pushes) (stmt_trees body.now) }
    ensures { IfOk result (λ steps. AllStand table.now (opening_site decls.now layout.now (λ x. has_name_lem x pushed.now)) (step_trees steps) (stmt_trees body.now)) }
{
    let stmts = stmts_of(alloc, layout, decls, table, body)?;
    let marks = marks_of(alloc, table, pushed)?;
    steps_of(alloc, table, marks.as_slice(), stmts.as_slice())
}

/// A program at its opening, for a sweep that pushes the old contents of `pushed`. Arguments alone have contents.
pub fn open_program(
    alloc: Global,
    typed: &Typed,
    layout: &Layout,
    args: &Args,
    pushed: &[Name],
) -> Result<Opened, Memory>
    requires laid { layout.now ≡ shapes_of typed.now args.now.entries }
    requires few { length (keys_of layout.now) ≤ 2 ^ 20 }
    ensures opened { IfOk result (λ o. IsOpened (program_tree typed.now) layout.now (λ x. has_name_lem x pushed.now)
        (place_words layout.now args.now.entries) o.table (step_trees o.body) o.cells.items) }
    ensures places { IfOk result (λ o. length o.cells.items ≡ length (keys_of o.table.0)) }
{
    let program = typed.program();
    let decls = program.decls.as_slice();
    let table = table_of(alloc, layout, decls)?;
    let words = layout.words_of(alloc, args.entries.as_slice())?;
    let cells = opening_cells(
        alloc,
        &table,
        layout,
        decls,
        program.args.as_slice(),
        &words,
    )?;
    let body = body_of(
        alloc,
        layout,
        decls,
        &table,
        program.body.as_slice(),
        pushed,
    )?;
    Ok(Opened { table, cells, body })
}
