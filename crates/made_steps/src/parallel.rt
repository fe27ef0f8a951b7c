ghost use Rattle.std.specs.Prelude.{◌≡◌, ◌<◌, true, ℕ, Bool, List, ◌∷◌, Some, length, IfOk};
ghost use Rattle.fl_types.specs.Kinds.{are_well_kinded_statements, is_well_kinded_head};
ghost use Rattle.meaning.specs.Sites.{Site, in_iteration};
ghost use Rattle.meaning.specs.Fitting.{names_at};
ghost use Rattle.store_core.specs.Keys.{HasEachOnce};
ghost use Rattle.resolved.specs.SlotTables.{table_site};
ghost use Rattle.resolved.specs.ResolvedExprs.{slot_name, expression_back, is_within};
ghost use Rattle.resolved.specs.ResolvedStmts.{option_back, is_option_within, statements_back, are_fit};
ghost use Rattle.sweep_steps.specs.Steps.{around_tree};
ghost use Rattle.sweep_steps.specs.StepsStand.{AroundStands};
ghost use Rattle.loop_scopes.specs.Loops.{names_in, IsLoopNames};
ghost use Rattle.loop_scopes.specs.Scopes.{IsScope, are_declared_placed};
ghost use Rattle.made_steps.specs.Scopes.{head_back};

use crate::heads::make_head;
use crate::nest::inner_head;
use fl_ast::{Directive, Memory};
use fl_base::Boxed;
use loop_scopes::{LoopNames, Loops, Marks, private_scalars};
use resolved::{ResolvedHead, ResolvedStmt, SlotTable};
use std::alloc::Global;
use sweep_steps::Around;

/// What is around the body of a parallel loop.
fn iterations_around(
    alloc: Global,
    table: &SlotTable,
    pushed: &[bool],
    accessed: &[bool],
    names: &LoopNames<'_>,
    line: u32,
    directive: &Directive,
    head: &ResolvedHead,
    body: &[ResolvedStmt],
) -> Result<Boxed<Around>, Memory>
    requires once { HasEachOnce table.now.0 }
    requires declared { are_declared_placed table.now ≡ true }
    requires variable { head.now.variable < length table.now.0 }
    requires first { is_within (length table.now.0) head.now.first ≡ true }
    requires last { is_within (length table.now.0) head.now.last ≡ true }
    requires step { is_option_within (length table.now.0) head.now.step ≡ true }
    requires kinded { is_well_kinded_head (names_at (table_site table.now)) (slot_name table.now.0 head.now.variable) (expression_back table.now.0 head.now.first)
        (expression_back table.now.0 head.now.last) (option_back table.now.0 head.now.step) ≡ true }
    requires body_fit { are_fit table.now body.now ≡ true }
    requires body_kinded { are_well_kinded_statements (names_at (table_site table.now)) (statements_back table.now.0 body.now) ≡ true }
    ensures { (site : Site) → (reduced : List Bool) → (outer : List (List ℕ)) → IsScope table.now pushed.now accessed.now reduced outer site
        → IsLoopNames names.now outer (slot_name table.now.0 head.now.variable) directive.now (statements_back table.now.0 body.now)
        → IfOk result (λ made. AroundStands table.now site (Some directive.now) (head_back table.now.0 line head.now) (statements_back table.now.0 body.now) (around_tree made)) }
{
    let inner = inner_head(alloc, table, accessed, directive, body)?;
    let inner = Boxed::new(alloc, inner)?;
    let privates = private_scalars(alloc, table, pushed, names)?;
    let head = make_head(alloc, table, accessed, line, head)?;
    Boxed::new(
        alloc,
        Around::Iterations {
            head,
            inner: inner.into_inner(),
            privates,
        },
    )
}

/// A parallel loop around its body: the marks are those in it.
#[derive(Drop)]
pub(crate) struct ParallelLoop {
    around: Around,
    pub(crate) marks: Marks,
}

/// What is around the body of a parallel loop, and the marks in it.
pub(crate) fn parallel_loop<'t>(
    alloc: Global,
    table: &'t SlotTable,
    pushed: &[bool],
    accessed: &[bool],
    loops: &Loops<'_, 't>,
    line: u32,
    directive: &'t Directive,
    head: &ResolvedHead,
    body: &[ResolvedStmt],
) -> Result<Boxed<ParallelLoop>, Memory>
    requires once { HasEachOnce table.now.0 }
    requires declared { are_declared_placed table.now ≡ true }
    requires variable { head.now.variable < length table.now.0 }
    requires first { is_within (length table.now.0) head.now.first ≡ true }
    requires last { is_within (length table.now.0) head.now.last ≡ true }
    requires step { is_option_within (length table.now.0) head.now.step ≡ true }
    requires kinded { is_well_kinded_head (names_at (table_site table.now)) (slot_name table.now.0 head.now.variable) (expression_back table.now.0 head.now.first)
        (expression_back table.now.0 head.now.last) (option_back table.now.0 head.now.step) ≡ true }
    requires body_fit { are_fit table.now body.now ≡ true }
    requires body_kinded { are_well_kinded_statements (names_at (table_site table.now)) (statements_back table.now.0 body.now) ≡ true }
    ensures { (site : Site) → (reduced : List Bool) → IsScope table.now pushed.now accessed.now reduced (names_in loops.now) site
        → IfOk result (λ made. AroundStands table.now site (Some directive.now) (head_back table.now.0 line head.now) (statements_back table.now.0 body.now) (around_tree made.around)
        × IsScope table.now pushed.now made.marks.accessed made.marks.reduced (slot_name table.now.0 head.now.variable ∷ names_in loops.now)
        (in_iteration site directive.now (slot_name table.now.0 head.now.variable) (statements_back table.now.0 body.now))) }
{
    let names = LoopNames::of(alloc, table, loops, directive, head.variable, body)?;
    let names = Boxed::new(alloc, names)?;
    let around = iterations_around(
        alloc,
        table,
        pushed,
        accessed,
        names.get(),
        line,
        directive,
        head,
        body,
    )?;
    let marks = Marks::inside(alloc, table, names.get())?;
    Boxed::new(
        alloc,
        ParallelLoop {
            around: around.into_inner(),
            marks,
        },
    )
}

pub(crate) fn around_of(made: Boxed<ParallelLoop>) -> Around
    ensures { result ≡ made.around }
{
    let ParallelLoop { around, marks: _ } = made.into_inner();
    around
}
