ghost use Rattle.std.specs.Prelude.{◌≡◌, ◌<◌, true, length, IfOk};
ghost use Rattle.fl_types.specs.Kinds.{is_index_step, is_well_kinded_head};
ghost use Rattle.meaning.specs.Fitting.{names_at};
ghost use Rattle.store_core.specs.Keys.{HasEachOnce};
ghost use Rattle.resolved.specs.SlotTables.{table_site};
ghost use Rattle.resolved.specs.ResolvedExprs.{slot_name, expression_back, is_within};
ghost use Rattle.resolved.specs.ResolvedStmts.{option_back, is_option_within};
ghost use Rattle.sweep_steps.specs.Steps.{option_tree, head_tree};
ghost use Rattle.sweep_steps.specs.StepsStand.{OptionStands, HeadStands};
ghost use Rattle.made_steps.specs.Scopes.{head_back};

use fl_ast::Memory;
use fl_base::Boxed;
use resolved::{ResolvedExpr, ResolvedHead, SlotTable};
use split_trees::split_index;
use std::alloc::Global;
use sweep_steps::StepHead;
use sweep_trees::IndexCode;

fn split_option(
    alloc: Global,
    table: &SlotTable,
    accessed: &[bool],
    expr: &Option<ResolvedExpr>,
) -> Result<Option<Boxed<IndexCode>>, Memory>
    requires within { is_option_within (length table.now.0) expr.now ≡ true }
    requires kinded { is_index_step (names_at (table_site table.now)) (option_back table.now.0 expr.now) ≡ true }
    ensures { IfOk result (λ code. OptionStands table.now accessed.now (option_back table.now.0 expr.now) (option_tree code)) }
{
    match expr {
        None => Ok(None),
        Some(expr) => Ok(Some(split_index(alloc, table, accessed, expr)?)),
    }
}

fn unboxed(code: Option<Boxed<IndexCode>>) -> Option<IndexCode>
    ensures { result ≡ code }
{
    match code {
        None => None,
        Some(code) => Some(code.into_inner()),
    }
}

/// The head of a loop at a line.
pub(crate) fn make_head(
    alloc: Global,
    table: &SlotTable,
    accessed: &[bool],
    line: u32,
    head: &ResolvedHead,
) -> Result<StepHead, Memory>
    requires once { HasEachOnce table.now.0 }
    requires variable { head.now.variable < length table.now.0 }
    requires first { is_within (length table.now.0) head.now.first ≡ true }
    requires last { is_within (length table.now.0) head.now.last ≡ true }
    requires step { is_option_within (length table.now.0) head.now.step ≡ true }
    requires kinded { is_well_kinded_head (names_at (table_site table.now)) (slot_name table.now.0 head.now.variable) (expression_back table.now.0 head.now.first)
        (expression_back table.now.0 head.now.last) (option_back table.now.0 head.now.step) ≡ true }
    ensures { IfOk result (λ made. HeadStands table.now accessed.now (head_back table.now.0 line head.now) (head_tree made)) }
{
    let first = split_index(alloc, table, accessed, &head.first)?;
    let last = split_index(alloc, table, accessed, &head.last)?;
    let step = split_option(alloc, table, accessed, &head.step)?;
    let place = table.layout().place_in(head.variable, &[]);
    Ok(StepHead {
        line,
        slot: head.variable,
        place,
        first: first.into_inner(),
        last: last.into_inner(),
        step: unboxed(step),
    })
}
