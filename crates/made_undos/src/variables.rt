//! The places of the variables of loops.

ghost use Rattle.std.specs.Prelude.{◌≡◌, ◌<◌, true, map, length, Some};
ghost use Rattle.fl_types.specs.Nests.{Head as LoopHead, head_of, is_plain_loop};
ghost use Rattle.resolved.specs.ResolvedExprs.{slot_name};
ghost use Rattle.resolved.specs.ResolvedStmts.{statement_back, statements_back, is_fit, are_fit};
ghost use Rattle.transposition.specs.Back.{loop_variables as loop_variables_lem};
ghost use Rattle.undo_steps.specs.UndoSteps.{variable_places};
ghost use Rattle.undo_steps.specs.UndosStand.{scalar_place as scalar_place_lem};

use fl_ast::Directive;
use loop_scopes::is_nest;
use resolved::{ResolvedStmt, SlotTable};
use undo_steps::Variables;

/// The place of a slot's name as a scalar.
pub(crate) fn scalar_place(table: &SlotTable, slot: usize) -> Option<u32>
    requires { slot < length table.now.0 }
    ensures { result ≡ scalar_place_lem table.now (slot_name table.now.0 slot) }
{
    table.layout().place_in(slot, &[])
}

fn inner_place(table: &SlotTable, stmt: &ResolvedStmt) -> Option<u32>
    requires fit { is_fit table.now stmt.now ≡ true }
    requires plain { is_plain_loop (statement_back table.now.0 stmt.now) ≡ true }
    ensures { (head : LoopHead) → head_of (statement_back table.now.0 stmt.now) ≡ Some head → result ≡ scalar_place_lem table.now head.var }
{
    match stmt {
        ResolvedStmt::Do { head, .. } => scalar_place(table, head.variable),
        ResolvedStmt::Assign { .. } | ResolvedStmt::If { .. } => unreachable!(),
    }
}

/// The variables of the loops whose iterations are those of a parallel loop.
pub(crate) fn loop_variables(
    table: &SlotTable,
    directive: &Directive,
    variable: usize,
    body: &[ResolvedStmt],
) -> Variables
    requires variable { variable < length table.now.0 }
    requires fit { are_fit table.now body.now ≡ true }
    ensures { variable_places result ≡ map (scalar_place_lem table.now) (loop_variables_lem directive.now (slot_name table.now.0 variable) (statements_back table.now.0 body.now)) }
{
    let outer = scalar_place(table, variable);
    if !is_nest(directive, body) {
        return Variables::One { place: outer };
    }
    let inner = inner_place(table, &body[0]);
    Variables::Two { outer, inner }
}
