ghost use Rattle.std.specs.Prelude.{◌≡◌, ◌++◌, map, OnOk};
ghost use Rattle.fl_ast.specs.Tree.{expr_tree, expr_trees, place_tree, cond_tree, step_tree};
ghost use Rattle.fl_types.specs.Accesses.{access, reads, reads_all, condition_reads, step_reads};
ghost use Rattle.loop_accesses.specs.Classes.{scope_by};
ghost use Rattle.loop_accesses.specs.Views.{steps_of, occurrence_of};

use crate::classes::LoopNames;
use crate::path::Path;
use fl_ast::{Cond, Expr, Place};
use fl_base::{Items, Memory};
use fl_types::{AccessKind, PathStep};
use std::alloc::Global;

/// An occurrence that is an access, without its number.
#[derive(Drop)]
pub(crate) struct Found<'t> {
    pub line: u32,
    pub place: &'t Place,
    pub path: Items<PathStep>,
    pub kind: AccessKind,
}

/// Adds an occurrence, where it is an access.
pub(crate) fn push_access<'t>(
    alloc: Global,
    names: &LoopNames<'_, '_>,
    line: u32,
    path: &Path<'_>,
    kind: AccessKind,
    place: &'t Place,
    found: &mut Items<Found<'t>>,
) -> Result<(), Memory>
    ensures { OnOk result (map occurrence_of found.new ≡ map occurrence_of found.old ++ access (scope_by names.now) line (steps_of path.now) kind (place_tree place.now)) }
{
    if !names.makes_accesses(&place.name) {
        return Ok(());
    }
    let path = path.steps(alloc)?;
    found.push(Found {
        line,
        place,
        path,
        kind,
    })?;
    Ok(())
}

/// Adds the accesses of an expression, in order of evaluation.
#[cycle(push_reads)]
pub(crate) fn push_reads<'t>(
    alloc: Global,
    names: &LoopNames<'_, '_>,
    line: u32,
    path: &Path<'_>,
    expr: &'t Expr,
    found: &mut Items<Found<'t>>,
) -> Result<(), Memory>
    ensures { OnOk result (map occurrence_of found.new ≡ map occurrence_of found.old ++ reads (scope_by names.now) line (steps_of path.now) (expr_tree expr.now)) }
{
    match expr {
        Expr::Lit { .. } => Ok(()),
        Expr::Get(place) => {
            push_all_reads(alloc, names, line, path, place.subscripts.as_slice(), found)?;
            push_access(alloc, names, line, path, AccessKind::Read, place, found)?;
            Ok(())
        }
        Expr::Neg(inner) => push_reads(alloc, names, line, path, inner.get(), found),
        Expr::Bin { left, right, .. } => {
            push_reads(alloc, names, line, path, left.get(), found)?;
            push_reads(alloc, names, line, path, right.get(), found)?;
            Ok(())
        }
        Expr::Pow { base, .. } => push_reads(alloc, names, line, path, base.get(), found),
        Expr::Call { args, .. } => {
            push_all_reads(alloc, names, line, path, args.as_slice(), found)
        }
    }
}

#[cycle(push_reads)]
pub(crate) fn push_all_reads<'t>(
    alloc: Global,
    names: &LoopNames<'_, '_>,
    line: u32,
    path: &Path<'_>,
    exprs: &'t [Expr],
    found: &mut Items<Found<'t>>,
) -> Result<(), Memory>
    ensures { OnOk result (map occurrence_of found.new ≡ map occurrence_of found.old ++ reads_all (scope_by names.now) line (steps_of path.now) (expr_trees exprs.now)) }
{
    for expr in exprs {
        push_reads(alloc, names, line, path, expr, found)?;
    }
    Ok(())
}

/// Adds the accesses of a condition.
pub(crate) fn push_condition_reads<'t>(
    alloc: Global,
    names: &LoopNames<'_, '_>,
    line: u32,
    path: &Path<'_>,
    test: &'t Cond,
    found: &mut Items<Found<'t>>,
) -> Result<(), Memory>
    ensures { OnOk result (map occurrence_of found.new ≡ map occurrence_of found.old ++ condition_reads (scope_by names.now) line (steps_of path.now) (cond_tree test.now)) }
{
    match test {
        Cond::Rel { left, right, .. } => {
            push_reads(alloc, names, line, path, left, found)?;
            push_reads(alloc, names, line, path, right, found)?;
            Ok(())
        }
        Cond::Not(inner) => push_condition_reads(alloc, names, line, path, inner.get(), found),
        Cond::And(left, right) => {
            push_condition_reads(alloc, names, line, path, left.get(), found)?;
            push_condition_reads(alloc, names, line, path, right.get(), found)?;
            Ok(())
        }
        Cond::Or(left, right) => {
            push_condition_reads(alloc, names, line, path, left.get(), found)?;
            push_condition_reads(alloc, names, line, path, right.get(), found)?;
            Ok(())
        }
    }
}

/// Adds the accesses of a loop's step.
pub(crate) fn push_step_reads<'t>(
    alloc: Global,
    names: &LoopNames<'_, '_>,
    line: u32,
    path: &Path<'_>,
    step: &'t Option<Expr>,
    found: &mut Items<Found<'t>>,
) -> Result<(), Memory>
    ensures { OnOk result (map occurrence_of found.new ≡ map occurrence_of found.old ++ step_reads (scope_by names.now) line (steps_of path.now) (step_tree step.now)) }
{
    match step {
        None => Ok(()),
        Some(step) => push_reads(alloc, names, line, path, step, found),
    }
}
