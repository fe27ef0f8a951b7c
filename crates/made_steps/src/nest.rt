ghost use Rattle.std.specs.Prelude.{◌≡◌, true, length, Some, IfOk};
ghost use Rattle.fl_types.specs.Nests.{Head as LoopHead, is_plain_loop as is_plain_loop_lem, head_of, further_head};
ghost use Rattle.fl_types.specs.Kinds.{is_well_kinded_statement, are_well_kinded_statements};
ghost use Rattle.meaning.specs.Fitting.{names_at};
ghost use Rattle.store_core.specs.Keys.{HasEachOnce};
ghost use Rattle.resolved.specs.SlotTables.{table_site};
ghost use Rattle.resolved.specs.ResolvedStmts.{statement_back, statements_back, is_fit, are_fit};
ghost use Rattle.sweep_steps.specs.Steps.{head_tree, inner_tree};
ghost use Rattle.sweep_steps.specs.StepsStand.{HeadStands, InnerStands};

use crate::heads::make_head;
use fl_ast::{Directive, Memory};
use loop_scopes::is_nest;
use resolved::{ResolvedStmt, SlotTable};
use std::alloc::Global;
use sweep_steps::StepHead;

/// The head of a loop.
fn loop_head(
    alloc: Global,
    table: &SlotTable,
    accessed: &[bool],
    stmt: &ResolvedStmt,
) -> Result<StepHead, Memory>
    requires once { HasEachOnce table.now.0 }
    requires fit { is_fit table.now stmt.now ≡ true }
    requires kinded { is_well_kinded_statement (names_at (table_site table.now)) (statement_back table.now.0 stmt.now) ≡ true }
    requires plain { is_plain_loop_lem (statement_back table.now.0 stmt.now) ≡ true }
    ensures { IfOk result (λ made. (head : LoopHead) → head_of (statement_back table.now.0 stmt.now) ≡ Some head
        → HeadStands table.now accessed.now head (head_tree made)) }
{
    match stmt {
        ResolvedStmt::Do { line, head, .. } => make_head(alloc, table, accessed, *line, head),
        ResolvedStmt::Assign { .. } | ResolvedStmt::If { .. } => unreachable!(),
    }
}

/// The head of the loop that a parallel loop is collapsed with.
pub(crate) fn inner_head(
    alloc: Global,
    table: &SlotTable,
    accessed: &[bool],
    directive: &Directive,
    body: &[ResolvedStmt],
) -> Result<Option<StepHead>, Memory>
    requires once { HasEachOnce table.now.0 }
    requires fit { are_fit table.now body.now ≡ true }
    requires kinded { are_well_kinded_statements (names_at (table_site table.now)) (statements_back table.now.0 body.now) ≡ true }
    ensures { IfOk result (λ made. InnerStands table.now accessed.now (further_head directive.now (statements_back table.now.0 body.now)) (inner_tree made)) }
{
    if !is_nest(directive, body) {
        return Ok(None);
    }
    Ok(Some(loop_head(alloc, table, accessed, &body[0])?))
}
