ghost use Rattle.std.specs.Prelude.{◌≡◌, ◌≤◌, ◌^◌, length, IfOk};
ghost use Rattle.fl_ast.specs.Tree.{program_tree};
ghost use Rattle.fl_types.specs.Sharing.{has_name};
ghost use Rattle.store_core.specs.Keys.{keys_of};
ghost use Rattle.store_core.specs.Places.{shapes_of};
ghost use Rattle.undo_steps.specs.UndoSteps.{undo_trees};
ghost use Rattle.reverse_opening.specs.Chosen.{IsUndone};

use crate::choices::rows_of;
use fl_base::{Items, Memory};
use fl_types::{Choices, NameSet, Typed};
use forward_run::{marks_of, stmts_of, table_of};
use made_growths::UndoNames;
use made_undos::undos_of;
use resolved::SlotTable;
use std::alloc::Global;
use store_core::{Args, Layout};
use undo_steps::UndoStep;

/// The names of a program, and the statements that undo its own.
#[derive(Drop)]
pub struct Undoing {
    pub table: SlotTable,
    pub body: Items<UndoStep>,
}

/// The statements that undo a program's, whose forward sweep pushes the old contents of the needed names. A name for which there is no
/// choice in a loop is taken as Atomic there.
pub fn open_reverse(
    alloc: Global,
    typed: &Typed,
    layout: &Layout,
    args: &Args,
    active: &NameSet,
    needed: &NameSet,
    choices: &Choices,
) -> Result<Undoing, Memory>
    requires laid { layout.now ≡ shapes_of typed.now args.now.entries }
    requires few { length (keys_of layout.now) ≤ 2 ^ 20 }
    ensures { IfOk result (λ u. IsUndone (program_tree typed.now) layout.now (λ x. has_name x needed.now.names) (λ x. has_name x active.now.names)
        choices.now.entries u.table (undo_trees u.body)) }
{
    let program = typed.program();
    let decls = program.decls.as_slice();
    let _args = args.entries.as_slice();
    let table = table_of(alloc, layout, decls)?;
    let stmts = stmts_of(alloc, layout, decls, &table, program.body.as_slice())?;
    let pushed = marks_of(alloc, &table, needed.names.as_slice())?;
    let actives = marks_of(alloc, &table, active.names.as_slice())?;
    let rows = rows_of(alloc, table.layout().shapes(), choices.entries.as_slice())?;
    let names = UndoNames {
        pushed: pushed.as_slice(),
        active: actives.as_slice(),
        choices: rows.as_slice(),
        shared: layout.count(),
    };
    let body = undos_of(alloc, &table, &names, stmts.as_slice())?;
    Ok(Undoing { table, body })
}
