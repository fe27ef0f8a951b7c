//! Names whose adjoints are incremented.

ghost use Rattle.std.specs.Prelude.{◌≡◌};
ghost use Rattle.fl_ast.specs.Tree.{expr_tree, expr_trees, place_tree, stmt_tree, stmt_trees, arm_trees};
ghost use Rattle.adjoint_choices.specs.Walked as spec;
ghost use Rattle.adjoint_choices.specs.Settings as settings;

use crate::choices::Names;
use fl_ast::{Arm, BinOp, Expr, Fun, Name, Place, Stmt};
use fl_types::increment_form;

fn is_division(op: BinOp) -> bool
    ensures { result ≡ spec.is_division op }
{
    match op {
        BinOp::Div => true,
        BinOp::Add | BinOp::Sub | BinOp::Mul => false,
    }
}

fn is_followed(fun: Fun, count: usize) -> bool
    ensures { result ≡ spec.is_followed fun count }
{
    match fun {
        Fun::Max | Fun::Min => count == 2,
        Fun::Abs => count == 1,
        Fun::Mod => false,
    }
}

/// Whether a name occurs in an expression, outside subscripts, where a derivative follows it.
#[cycle(carries)]
fn carries(expr: &Expr, name: &Name) -> bool
    ensures { result ≡ spec.carries name.now (expr_tree expr.now) }
{
    match expr {
        Expr::Lit { .. } => false,
        Expr::Get(place) => name.is(&place.name),
        Expr::Neg(inner) => carries(inner.get(), name),
        Expr::Bin { op, left, right } => {
            if is_division(*op) {
                return false;
            }
            if carries(left.get(), name) {
                return true;
            }
            carries(right.get(), name)
        }
        Expr::Pow { base, .. } => carries(base.get(), name),
        Expr::Call { fun, args } => {
            let args = args.as_slice();
            if !is_followed(*fun, args.len()) {
                return false;
            }
            any_carries(args, name)
        }
    }
}

#[cycle(carries)]
fn any_carries(exprs: &[Expr], name: &Name) -> bool
    ensures { result ≡ spec.any_carries name.now (expr_trees exprs.now) }
{
    for expr in exprs {
        if carries(expr, name) {
            return true;
        }
    }
    false
}

/// Whether the reverse of an assignment increments a name's adjoint. In an increment the target's own occurrence is none.
fn is_carried_by(names: &Names<'_>, name: &Name, target: &Place, value: &Expr) -> bool
    ensures { result ≡ spec.carried_by (settings.kinds_of_names names.now) name.now (place_tree target.now) (expr_tree value.now) }
{
    if !carries(value, name) {
        return false;
    }
    if !names.is_active(&target.name) {
        return false;
    }
    if !name.is(&target.name) {
        return true;
    }
    if !names.is_ring(&target.name) {
        return true;
    }
    increment_form(target, value).is_none()
}

#[cycle(carried)]
fn is_carried(names: &Names<'_>, name: &Name, stmt: &Stmt) -> bool
    ensures { result ≡ spec.carried (settings.kinds_of_names names.now) name.now (stmt_tree stmt.now) }
{
    match stmt {
        Stmt::Assign { target, value, .. } => is_carried_by(names, name, target, value),
        Stmt::If { arms, other, .. } => {
            if is_carried_in_arms(names, name, arms.as_slice()) {
                return true;
            }
            is_carried_in(names, name, other.as_slice())
        }
        Stmt::Do { body, .. } => is_carried_in(names, name, body.as_slice()),
    }
}

/// Whether the reverse of these statements increments a name's adjoint.
#[cycle(carried)]
pub fn is_carried_in(names: &Names<'_>, name: &Name, stmts: &[Stmt]) -> bool
    ensures { result ≡ spec.carried_in (settings.kinds_of_names names.now) name.now (stmt_trees stmts.now) }
{
    for stmt in stmts {
        if is_carried(names, name, stmt) {
            return true;
        }
    }
    false
}

#[cycle(carried)]
fn is_carried_in_arms(names: &Names<'_>, name: &Name, arms: &[Arm]) -> bool
    ensures { result ≡ spec.carried_in_arms (settings.kinds_of_names names.now) name.now (arm_trees arms.now) }
{
    for arm in arms {
        if is_carried_in(names, name, arm.body.as_slice()) {
            return true;
        }
    }
    false
}
