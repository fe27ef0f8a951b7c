//! The statements of an iteration.

ghost use Rattle.std.specs.Prelude.{◌≡◌, ◌++◌, ◌∷◌, [], if◌then◌else◌, IfOk, OnOk, filter, map, reverse};
ghost use Rattle.fl_ast.specs.Tree.{stmt_trees};
ghost use Rattle.fl_ast.specs.AdjointTree.{astmt_tree, push as push_lem, pop as pop_lem};
ghost use Rattle.adjoint_rules.specs.Bounds.{numbering as numbering_lem, further_loops};
ghost use Rattle.adjoint_rules.specs.Expressions.{cleared as cleared_lem};
ghost use Rattle.adjoint_rules.specs.Forward as forward_rules;
ghost use Rattle.adjoint_rules.specs.Reverse as reverse_rules;
ghost use Rattle.adjoint_rules.specs.OwnNames as own;
ghost use Rattle.reversal.specs.Places.{scope_of};
ghost use Rattle.loop_bounds.specs.Heads.{head_of};
ghost use Rattle.adjoint_loops.specs.Iterations as spec;

use crate::heads::further;
use crate::statement::{numbering, popped, pushed, zeroed};
use fl_ast::{AStmt, Name};
use fl_base::{Items, Memory};
use loop_bounds::LoopHead;
use loop_names::{private_scalars, pushed_scalars};
use reversal::{Region, Scope, cleared, scalar};
use std::alloc::Global;

/// Adds the number of an iteration.
fn push_numbering(
    alloc: Global,
    head: &LoopHead<'_>,
    region: &Region<'_>,
    statements: &mut Items<AStmt>,
) -> Result<(), Memory>
    ensures { OnOk result (map astmt_tree statements.new ≡ map astmt_tree statements.old
        ++ numbering_lem (head_of head.now) (further_loops region.now.directive.now (stmt_trees region.now.body.now)) ∷ []) }
{
    let further = further(region.directive, region.body);
    statements.push(numbering(alloc, head, &further)?)?;
    Ok(())
}

fn push_all_zeroed(
    alloc: Global,
    scope: &Scope<'_>,
    line: u32,
    names: &[Name],
    statements: &mut Items<AStmt>,
) -> Result<(), Memory>
    ensures { OnOk result (map astmt_tree statements.new ≡ map astmt_tree statements.old ++ map (forward_rules.zeroed (scope_of scope.now) line) names.now) }
{
    for name in names {
        statements.push(zeroed(alloc, scope, line, name)?)?;
    }
    Ok(())
}

fn push_all_pushed(
    alloc: Global,
    line: u32,
    names: &[Name],
    statements: &mut Items<AStmt>,
) -> Result<(), Memory>
    ensures { OnOk result (map astmt_tree statements.new ≡ map astmt_tree statements.old ++ map (λ x. push_lem line (own.value own.k_name) (own.value x)) names.now) }
{
    for name in names {
        statements.push(pushed(alloc, line, name)?)?;
    }
    Ok(())
}

/// Adds the pops of these names, the last one's first.
fn push_all_popped(
    alloc: Global,
    line: u32,
    names: &[Name],
    statements: &mut Items<AStmt>,
) -> Result<(), Memory>
    ensures { OnOk result (map astmt_tree statements.new ≡ map astmt_tree statements.old ++ map (λ x. pop_lem line (own.value own.k_name) (own.scalar x)) (reverse names.now)) }
{
    for i in (0..names.len()).rev() {
        statements.push(popped(alloc, line, &names[i])?)?;
    }
    Ok(())
}

/// Adds the clear of a name's adjoint, where it is active.
fn push_where_cleared(
    alloc: Global,
    scope: &Scope<'_>,
    line: u32,
    name: &Name,
    statements: &mut Items<AStmt>,
) -> Result<(), Memory>
    ensures { OnOk result (map astmt_tree statements.new ≡ map astmt_tree statements.old
        ++ (if (scope_of scope.now).active name.now then cleared_lem line (own.scalar name.now) ∷ [] else [])) }
{
    if scope.is_active(name) {
        let place = scalar(alloc, name.bytes())?;
        statements.push(cleared(alloc, line, &place)?)?;
    }
    Ok(())
}

fn push_all_cleared(
    alloc: Global,
    scope: &Scope<'_>,
    line: u32,
    names: &[Name],
    statements: &mut Items<AStmt>,
) -> Result<(), Memory>
    ensures { OnOk result (map astmt_tree statements.new ≡ map astmt_tree statements.old
        ++ map (λ x. cleared_lem line (own.scalar x)) (filter (scope_of scope.now).active names.now)) }
{
    for name in names {
        push_where_cleared(alloc, scope, line, name, statements)?;
    }
    Ok(())
}

/// Adds what comes before the body's statements: the number, and the private scalars set to zero.
fn push_forward_start(
    alloc: Global,
    scope: &Scope<'_>,
    region: &Region<'_>,
    head: &LoopHead<'_>,
    statements: &mut Items<AStmt>,
) -> Result<(), Memory>
    ensures { OnOk result (map astmt_tree statements.new ≡ map astmt_tree statements.old
        ++ spec.forward_start (scope_of scope.now) region.now.var.now region.now.directive.now (head_of head.now) (stmt_trees region.now.body.now)) }
{
    push_numbering(alloc, head, region, statements)?;
    let privates = private_scalars(alloc, scope, region)?;
    push_all_zeroed(alloc, scope, head.line, privates.as_slice(), statements)
}

/// Adds what comes after the body's statements: the pushes of private scalars.
fn push_forward_end(
    alloc: Global,
    scope: &Scope<'_>,
    region: &Region<'_>,
    line: u32,
    statements: &mut Items<AStmt>,
) -> Result<(), Memory>
    ensures { OnOk result (map astmt_tree statements.new ≡ map astmt_tree statements.old
        ++ spec.forward_end (scope_of scope.now) region.now.var.now region.now.directive.now line (stmt_trees region.now.body.now)) }
{
    let names = pushed_scalars(alloc, scope, region)?;
    push_all_pushed(alloc, line, names.as_slice(), statements)
}

/// Adds what comes before the reverse of the body's statements: the number, the pops of private scalars, and their
/// adjoints set to zero.
fn push_backward_start(
    alloc: Global,
    scope: &Scope<'_>,
    region: &Region<'_>,
    head: &LoopHead<'_>,
    statements: &mut Items<AStmt>,
) -> Result<(), Memory>
    ensures { OnOk result (map astmt_tree statements.new ≡ map astmt_tree statements.old
        ++ spec.backward_start (scope_of scope.now) region.now.var.now region.now.directive.now (head_of head.now) (stmt_trees region.now.body.now)) }
{
    push_numbering(alloc, head, region, statements)?;
    let names = pushed_scalars(alloc, scope, region)?;
    push_all_popped(alloc, head.line, names.as_slice(), statements)?;
    let privates = private_scalars(alloc, scope, region)?;
    push_all_cleared(alloc, scope, head.line, privates.as_slice(), statements)
}

/// The statements of an iteration, around those that the body became.
pub fn forward_iteration(
    alloc: Global,
    scope: &Scope<'_>,
    region: &Region<'_>,
    head: &LoopHead<'_>,
    made: Items<AStmt>,
) -> Result<Items<AStmt>, Memory>
    ensures { IfOk result (λ ss. map astmt_tree ss ≡ spec.forward_around (scope_of scope.now) region.now.var.now region.now.directive.now (head_of head.now) (stmt_trees region.now.body.now) (map astmt_tree made)) }
{
    let mut all = Items::new(alloc);
    push_forward_start(alloc, scope, region, head, &mut all)?;
    all.append(made)?;
    push_forward_end(alloc, scope, region, head.line, &mut all)?;
    Ok(all)
}

/// The statements of an iteration's reverse, around those that the body became.
pub fn backward_iteration(
    alloc: Global,
    scope: &Scope<'_>,
    region: &Region<'_>,
    head: &LoopHead<'_>,
    made: Items<AStmt>,
) -> Result<Items<AStmt>, Memory>
    ensures { IfOk result (λ ss. map astmt_tree ss ≡ spec.backward_around (scope_of scope.now) region.now.var.now region.now.directive.now (head_of head.now) (stmt_trees region.now.body.now) (map astmt_tree made)) }
{
    let mut all = Items::new(alloc);
    push_backward_start(alloc, scope, region, head, &mut all)?;
    all.append(made)?;
    Ok(all)
}
