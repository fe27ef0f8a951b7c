//! What is around the bodies of parallel loops.

ghost use Rattle.std.specs.Prelude.{◌≡◌, ◌<◌, true, ℕ, Bool, List, ◌∷◌, Option, Some, length, IfOk};
ghost use Rattle.resolved.specs.ResolvedExprs.{slot_name};
ghost use Rattle.resolved.specs.ResolvedStmts.{statements_back, are_fit};
ghost use Rattle.transposition.specs.Worlds.{World, in_iteration};
ghost use Rattle.undo_steps.specs.UndoSteps.{around_undo};
ghost use Rattle.undo_steps.specs.UndosStand.{AroundUndoes};
ghost use Rattle.loop_scopes.specs.Loops.{names_in, IsLoopNames};
ghost use Rattle.loop_scopes.specs.Scopes.{are_declared_placed};
ghost use Rattle.made_growths.specs.Told.{told};
ghost use Rattle.made_undos.specs.UndoScopes.{IsUndoScope};

use crate::reductions::reductions_of;
use crate::variables::loop_variables;
use fl_ast::{Directive, Memory};
use fl_base::Boxed;
use loop_scopes::{LoopNames, Loops, Marks, private_scalars};
use made_growths::UndoNames;
use resolved::{ResolvedStmt, SlotTable};
use std::alloc::Global;
use undo_steps::UndoAround;

fn iterations_around(
    alloc: Global,
    table: &SlotTable,
    names: &UndoNames<'_>,
    own: &LoopNames<'_>,
    number: u32,
    directive: &Directive,
    variable: usize,
    body: &[ResolvedStmt],
) -> Result<Boxed<UndoAround>, Memory>
    requires declared { are_declared_placed table.now ≡ true }
    requires variable { variable < length table.now.0 }
    requires fit { are_fit table.now body.now ≡ true }
    ensures { (w : World) → (accessed reduced : List Bool) → (region : Option ℕ) → (outer : List (List ℕ)) → IsUndoScope table.now (told names.now) accessed reduced region outer w
        → IsLoopNames own.now outer (slot_name table.now.0 variable) directive.now (statements_back table.now.0 body.now)
        → IfOk result (λ made. AroundUndoes table.now w number (Some directive.now) (slot_name table.now.0 variable) (statements_back table.now.0 body.now) (around_undo made)) }
{
    let variables = loop_variables(table, directive, variable, body);
    let privates = private_scalars(alloc, table, names.pushed, own)?;
    let reductions = reductions_of(alloc, table, names, number)?;
    Boxed::new(
        alloc,
        UndoAround::Iterations {
            variables,
            privates,
            reductions,
        },
    )
}

/// A parallel loop around its body: the marks are those in it.
#[derive(Drop)]
pub(crate) struct ParallelUndo {
    around: UndoAround,
    pub(crate) marks: Marks,
}

/// What is around the body of a parallel loop, and the marks in it.
pub(crate) fn parallel_undo<'t>(
    alloc: Global,
    table: &'t SlotTable,
    names: &UndoNames<'_>,
    loops: &Loops<'_, 't>,
    number: u32,
    directive: &'t Directive,
    variable: usize,
    body: &[ResolvedStmt],
) -> Result<Boxed<ParallelUndo>, Memory>
    requires declared { are_declared_placed table.now ≡ true }
    requires variable { variable < length table.now.0 }
    requires fit { are_fit table.now body.now ≡ true }
    ensures { (w : World) → (accessed reduced : List Bool) → (region : Option ℕ) → IsUndoScope table.now (told names.now) accessed reduced region (names_in loops.now) w
        → IfOk result (λ made. AroundUndoes table.now w number (Some directive.now) (slot_name table.now.0 variable) (statements_back table.now.0 body.now) (around_undo made.around)
        × IsUndoScope table.now (told names.now) made.marks.accessed made.marks.reduced (Some number) (slot_name table.now.0 variable ∷ names_in loops.now)
        (in_iteration w number directive.now (slot_name table.now.0 variable) (statements_back table.now.0 body.now))) }
{
    let own = LoopNames::of(alloc, table, loops, directive, variable, body)?;
    let own = Boxed::new(alloc, own)?;
    let around = iterations_around(
        alloc,
        table,
        names,
        own.get(),
        number,
        directive,
        variable,
        body,
    )?;
    let marks = Marks::inside(alloc, table, own.get())?;
    Boxed::new(
        alloc,
        ParallelUndo {
            around: around.into_inner(),
            marks,
        },
    )
}

pub(crate) fn around_of(made: Boxed<ParallelUndo>) -> UndoAround
    ensures { result ≡ made.around }
{
    let ParallelUndo { around, marks: _ } = made.into_inner();
    around
}
