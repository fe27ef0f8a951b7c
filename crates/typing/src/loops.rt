//! Names in loops.

ghost use Rattle.std.specs.Prelude.{◌≡◌, not, ◌||◌};
ghost use Rattle.fl_types.specs.Nests as nests;
ghost use Rattle.fl_ast.specs.Tree.{expr_tree, expr_trees, step_tree, stmt_tree, stmt_trees, arm_trees};
ghost use Rattle.fl_types.specs.Sharing as sharing;
ghost use Rattle.fl_types.specs.Rows as rows;
ghost use Rattle.typing.specs.Views.{region_of, optional_region};

use crate::around::Region;
use crate::names::has_name;
use fl_ast::{Arm, Directive, Expr, Name, Stmt};

#[cycle(varies)]
fn varies(stmt: &Stmt, name: &Name) -> bool
    ensures { result ≡ sharing.varies name.now (stmt_tree stmt.now) }
{
    match stmt {
        Stmt::Assign { .. } => false,
        Stmt::If { arms, other, .. } => {
            varies_in_arms(arms.as_slice(), name) || varies_in(other.as_slice(), name)
        }
        Stmt::Do { var, body, .. } => name.is(var) || varies_in(body.as_slice(), name),
    }
}

#[cycle(varies)]
fn varies_in(stmts: &[Stmt], name: &Name) -> bool
    ensures { result ≡ sharing.varies_in name.now (stmt_trees stmts.now) }
{
    for stmt in stmts {
        if varies(stmt, name) {
            return true;
        }
    }
    false
}

#[cycle(varies)]
fn varies_in_arms(arms: &[Arm], name: &Name) -> bool
    ensures { result ≡ sharing.varies_in_arms name.now (arm_trees arms.now) }
{
    for arm in arms {
        if varies_in(arm.body.as_slice(), name) {
            return true;
        }
    }
    false
}

#[cycle(assigns)]
fn assigns(stmt: &Stmt, name: &Name) -> bool
    ensures { result ≡ sharing.assigns name.now (stmt_tree stmt.now) }
{
    match stmt {
        Stmt::Assign { target, .. } => name.is(&target.name),
        Stmt::If { arms, other, .. } => {
            assigns_in_arms(arms.as_slice(), name) || assigns_in(other.as_slice(), name)
        }
        Stmt::Do { body, .. } => assigns_in(body.as_slice(), name),
    }
}

#[cycle(assigns)]
fn assigns_in(stmts: &[Stmt], name: &Name) -> bool
    ensures { result ≡ sharing.assigns_in name.now (stmt_trees stmts.now) }
{
    for stmt in stmts {
        if assigns(stmt, name) {
            return true;
        }
    }
    false
}

#[cycle(assigns)]
fn assigns_in_arms(arms: &[Arm], name: &Name) -> bool
    ensures { result ≡ sharing.assigns_in_arms name.now (arm_trees arms.now) }
{
    for arm in arms {
        if assigns_in(arm.body.as_slice(), name) {
            return true;
        }
    }
    false
}

pub(crate) fn varies_in_loop(region: &Region<'_>, name: &Name) -> bool
    ensures { result ≡ rows.varies_in_loop (region_of region.now) name.now }
{
    name.is(region.var) || varies_in(region.body, name)
}

pub(crate) fn is_private_in(region: &Region<'_>, name: &Name) -> bool
    ensures { result ≡ rows.is_private_in (region_of region.now) name.now }
{
    has_name(name, region.directive.privates.as_slice()) && !varies_in_loop(region, name)
}

pub(crate) fn is_own_in(parallel: &Option<Region<'_>>, name: &Name) -> bool
    ensures { result ≡ rows.is_own_in (optional_region parallel.now) name.now }
{
    match parallel {
        None => false,
        Some(region) => {
            has_name(name, region.directive.privates.as_slice()) || varies_in_loop(region, name)
        }
    }
}

pub(crate) fn is_first_in(parallel: &Option<Region<'_>>, name: &Name) -> bool
    ensures { result ≡ rows.is_first_in (optional_region parallel.now) name.now }
{
    match parallel {
        None => false,
        Some(region) => has_name(name, region.directive.firsts.as_slice()),
    }
}

pub(crate) fn is_plus_in(parallel: &Option<Region<'_>>, name: &Name) -> bool
    ensures { result ≡ rows.is_plus_in (optional_region parallel.now) name.now }
{
    match parallel {
        None => false,
        Some(region) => has_name(name, region.directive.pluses.as_slice()),
    }
}

fn is_listed(directive: &Directive, name: &Name) -> bool
    ensures { result ≡ rows.is_listed directive.now name.now }
{
    if has_name(name, directive.privates.as_slice()) {
        return true;
    }
    if has_name(name, directive.firsts.as_slice()) {
        return true;
    }
    has_name(name, directive.shareds.as_slice()) || has_name(name, directive.pluses.as_slice())
}

pub(crate) fn is_unlisted_in(parallel: &Option<Region<'_>>, name: &Name) -> bool
    ensures { result ≡ rows.is_unlisted_in (optional_region parallel.now) name.now }
{
    match parallel {
        None => false,
        Some(region) => {
            if !region.directive.none || is_listed(region.directive, name) {
                return false;
            }
            !varies_in_loop(region, name)
        }
    }
}

fn changes_in(region: &Region<'_>, name: &Name) -> bool
    ensures { result ≡ rows.changes_in (region_of region.now) name.now }
{
    name.is(region.var) || assigns_in(region.body, name)
}

#[cycle(changing)]
fn some_changing(expr: &Expr, region: &Region<'_>) -> bool
    ensures { result ≡ rows.some_name (rows.changes_in (region_of region.now)) (expr_tree expr.now) }
{
    match expr {
        Expr::Lit { .. } => false,
        Expr::Get(place) => {
            changes_in(region, &place.name) || any_changing(place.subscripts.as_slice(), region)
        }
        Expr::Neg(inner) => some_changing(inner.get(), region),
        Expr::Bin { left, right, .. } => {
            some_changing(left.get(), region) || some_changing(right.get(), region)
        }
        Expr::Pow { base, .. } => some_changing(base.get(), region),
        Expr::Call { args, .. } => any_changing(args.as_slice(), region),
    }
}

#[cycle(changing)]
fn any_changing(exprs: &[Expr], region: &Region<'_>) -> bool
    ensures { result ≡ rows.some_names (rows.changes_in (region_of region.now)) (expr_trees exprs.now) }
{
    for expr in exprs {
        if some_changing(expr, region) {
            return true;
        }
    }
    false
}

fn step_changing(step: &Option<Expr>, region: &Region<'_>) -> bool
    ensures { result ≡ rows.some_step_name (rows.changes_in (region_of region.now)) (step_tree step.now) }
{
    match step {
        None => false,
        Some(expr) => some_changing(expr, region),
    }
}

/// Whether the bounds or the step of a loop go by what the loop around it changes.
fn head_changing(first: &Expr, last: &Expr, step: &Option<Expr>, region: &Region<'_>) -> bool
    ensures { result ≡ rows.some_name (rows.changes_in (region_of region.now)) (expr_tree first.now)
        || (rows.some_name (rows.changes_in (region_of region.now)) (expr_tree last.now)
        || rows.some_step_name (rows.changes_in (region_of region.now)) (step_tree step.now)) }
{
    if some_changing(first, region) {
        return true;
    }
    some_changing(last, region) || step_changing(step, region)
}

/// Whether a loop's only statement can't be the other of two loops that are collapsed.
fn is_no_inner(stmt: &Stmt, region: &Region<'_>) -> bool
    ensures { result ≡ not (nests.is_plain_loop (stmt_tree stmt.now)) || rows.some_head_name (rows.changes_in (region_of region.now)) (nests.head_of (stmt_tree stmt.now)) }
{
    match stmt {
        Stmt::Assign { .. } | Stmt::If { .. } => true,
        Stmt::Do {
            directive,
            first,
            last,
            step,
            ..
        } => match directive {
            Some(_) => true,
            None => head_changing(first, last, step, region),
        },
    }
}

#[tactic(auto, using(crate::proofs::Lists::many_alone))]
fn is_no_nest(region: &Region<'_>) -> bool
    ensures { result ≡ not (nests.is_one_loop (region_of region.now).body) || rows.some_head_name (rows.changes_in (region_of region.now)) (nests.inner_head (region_of region.now).body) }
{
    match region.body {
        [stmt] => is_no_inner(stmt, region),
        _ => true,
    }
}

/// Whether two loops are to be collapsed that can't be.
pub(crate) fn is_bad_nest(region: &Region<'_>) -> bool
    ensures { result ≡ rows.is_bad_nest (region_of region.now) }
{
    region.directive.collapse == 2 && is_no_nest(region)
}
