//! The forward and the reverse of increments.

ghost use Rattle.std.specs.Prelude.{◌≡◌, ◌++◌, ◌∷◌, [], IfOk, OnOk, map};
ghost use Rattle.fl_ast.specs.Tree.{place_tree, expr_tree};
ghost use Rattle.fl_ast.specs.AdjointTree.{aexpr_tree, astmt_tree, adjoint_assignment, adjoint_binary, adjoint_get};
ghost use Rattle.fl_ast.specs.declared.kind.BinOp.TheVariants as op;
ghost use Rattle.fl_types.specs.declared.increment.IncrementForm.TheVariants as form;
ghost use Rattle.fl_types.specs.Increment.{target_of, increment_terms};
ghost use Rattle.fl_types.specs.Sharing.{has_name as has_name_lem};
ghost use Rattle.adjoint_rules.specs.Expressions as rules;
ghost use Rattle.adjoint_rules.specs.Forward as forward_rules;
ghost use Rattle.adjoint_rules.specs.Reverse as reverse_rules;
ghost use Rattle.reversal.specs.Chains as spec;
ghost use Rattle.reversal.specs.Growth.{is_atomic_in};
ghost use Rattle.reversal.specs.Places.{scope_of};

use crate::chain::{is_target, push_chain, sum_of, turned};
use crate::expression::{binary, get, in_adjoint};
use crate::growth::{Growth, push_growths};
use crate::name::temporary;
use crate::plain::{kept, push_backward_plain, push_forward_plain, taken};
use crate::scope::Scope;
use fl_ast::{AExpr, AStmt, BinOp, Expr, Place};
use fl_base::{Boxed, Items, Memory};
use fl_types::{IncrementForm, increment_form};
use std::alloc::Global;

/// The form of an assignment, where it is an increment of data.
fn form_of(scope: &Scope<'_>, target: &Place, value: &Expr) -> Option<IncrementForm>
    ensures { result ≡ spec.form_of (scope_of scope.now).ring (place_tree target.now) (expr_tree value.now) }
{
    if scope.is_ring(&target.name) {
        increment_form(target, value)
    } else {
        None
    }
}

fn is_long(target: &Place, value: &Expr) -> bool
    ensures { result ≡ spec.is_long (target_of (place_tree target.now)) (expr_tree value.now) }
{
    match value {
        Expr::Bin { left, .. } => !is_target(target, left.get()),
        _ => false,
    }
}

fn front_of(value: &Expr) -> &Expr
    ensures { expr_tree result.now ≡ spec.front_of (expr_tree value.now) }
{
    match value {
        Expr::Bin { left, .. } => left.get(),
        _ => value,
    }
}

/// The target less an amount.
fn less(alloc: Global, target: &Place, amount: Boxed<AExpr>) -> Result<Boxed<AExpr>, Memory>
    ensures { IfOk result (λ e. aexpr_tree e ≡ adjoint_binary op.Sub (adjoint_get (place_tree target.now)) (aexpr_tree amount)) }
{
    let front = get(alloc, target)?;
    binary(alloc, BinOp::Sub, front, amount)
}

/// The target without a chain's terms.
fn without_chain(
    alloc: Global,
    together: bool,
    target: &Place,
    value: &Expr,
) -> Result<Boxed<AExpr>, Memory>
    ensures { IfOk result (λ e. aexpr_tree e ≡ rules.in_adjoint (spec.without_by form.Chain together (target_of (place_tree target.now)) (expr_tree value.now))) }
{
    if together && is_long(target, value) {
        less(alloc, target, sum_of(alloc, value, target)?)
    } else {
        turned(alloc, value, target)
    }
}

/// The target without an increment's terms, which go together in an atomic update.
fn without(
    alloc: Global,
    form: IncrementForm,
    together: bool,
    target: &Place,
    value: &Expr,
) -> Result<Boxed<AExpr>, Memory>
    ensures { IfOk result (λ e. aexpr_tree e ≡ rules.in_adjoint (spec.without_by form together (target_of (place_tree target.now)) (expr_tree value.now))) }
{
    match form {
        IncrementForm::Chain => without_chain(alloc, together, target, value),
        IncrementForm::Sum => less(alloc, target, in_adjoint(alloc, front_of(value))?),
    }
}

/// The update that undoes an increment.
fn undone(
    alloc: Global,
    line: u32,
    form: IncrementForm,
    together: bool,
    target: &Place,
    value: &Expr,
) -> Result<AStmt, Memory>
    ensures { IfOk result (λ s. astmt_tree s
        ≡ adjoint_assignment line together (place_tree target.now) (rules.in_adjoint (spec.without_by form together (target_of (place_tree target.now)) (expr_tree value.now)))) }
{
    let value = without(alloc, form, together, target, value)?;
    let target = target.clone(alloc)?;
    Ok(AStmt::Assign {
        line,
        atomic: together,
        target,
        value: value.into_inner(),
    })
}

/// Adds that update, where the target is needed.
fn push_undone(
    alloc: Global,
    scope: &Scope<'_>,
    line: u32,
    atomic: bool,
    form: IncrementForm,
    target: &Place,
    value: &Expr,
    reverse: &mut Items<AStmt>,
) -> Result<(), Memory>
    ensures { OnOk result (map astmt_tree reverse.new ≡ map astmt_tree reverse.old
        ++ spec.undone_by (scope_of scope.now) line atomic form (place_tree target.now) (expr_tree value.now)) }
{
    if !scope.is_needed(&target.name) {
        return Ok(());
    }
    let together = atomic || scope.is_reduced(&target.name);
    reverse.push(undone(alloc, line, form, together, target, value)?)
}

/// Adds what the operands of an increment's terms grow by.
fn push_term_growths(
    alloc: Global,
    growth: &Growth<'_>,
    form: IncrementForm,
    target: &Place,
    value: &Expr,
    amount: &AExpr,
    reverse: &mut Items<AStmt>,
) -> Result<(), Memory>
    ensures { OnOk result (map astmt_tree reverse.new ≡ map astmt_tree reverse.old
        ++ spec.growths_by (λ x. has_name_lem x growth.now.active.now.names) (is_atomic_in growth.now.choices.now growth.now.number) growth.now.line form (target_of (place_tree target.now)) (expr_tree value.now) (aexpr_tree amount.now)) }
{
    match form {
        IncrementForm::Chain => push_chain(alloc, growth, value, target, amount, reverse),
        IncrementForm::Sum => push_growths(alloc, growth, front_of(value), false, amount, reverse),
    }
}

/// Adds the spread of an increment's adjoint over its terms.
fn push_term_spread(
    alloc: Global,
    scope: &Scope<'_>,
    line: u32,
    form: IncrementForm,
    target: &Place,
    value: &Expr,
    reverse: &mut Items<AStmt>,
) -> Result<(), Memory>
    ensures { OnOk result (map astmt_tree reverse.new ≡ map astmt_tree reverse.old
        ++ spec.spread_by (scope_of scope.now) line form (place_tree target.now) (expr_tree value.now)) }
{
    let amount = get(alloc, &temporary(alloc)?)?;
    let growth = scope.growth(line);
    push_term_growths(alloc, &growth, form, target, value, amount.get(), reverse)
}

/// Adds the reverse of an increment: it is undone, and the target's adjoint is spread over the terms.
fn push_backward_increment(
    alloc: Global,
    scope: &Scope<'_>,
    line: u32,
    atomic: bool,
    form: IncrementForm,
    target: &Place,
    value: &Expr,
    reverse: &mut Items<AStmt>,
) -> Result<(), Memory>
    ensures { OnOk result (map astmt_tree reverse.new ≡ map astmt_tree reverse.old
        ++ spec.backward_by (scope_of scope.now) line atomic form (place_tree target.now) (expr_tree value.now)) }
{
    push_undone(alloc, scope, line, atomic, form, target, value, reverse)?;
    if !scope.is_active(&target.name) {
        return Ok(());
    }
    reverse.push(taken(alloc, line, target)?)?;
    push_term_spread(alloc, scope, line, form, target, value, reverse)
}

/// Adds the assignment as it stands.
fn push_kept(
    alloc: Global,
    line: u32,
    atomic: bool,
    target: &Place,
    value: &Expr,
    forward: &mut Items<AStmt>,
) -> Result<(), Memory>
    ensures { OnOk result (map astmt_tree forward.new ≡ map astmt_tree forward.old ++ forward_rules.kept line atomic (place_tree target.now) (expr_tree value.now) ∷ []) }
{
    forward.push(kept(alloc, line, atomic, target, value)?)
}

/// Adds the forward of an assignment.
pub fn push_forward_assignment(
    alloc: Global,
    scope: &Scope<'_>,
    line: u32,
    atomic: bool,
    target: &Place,
    value: &Expr,
    forward: &mut Items<AStmt>,
) -> Result<(), Memory>
    ensures { OnOk result (map astmt_tree forward.new ≡ map astmt_tree forward.old
        ++ forward_rules.forward_assignment (scope_of scope.now) line atomic (place_tree target.now) (expr_tree value.now)
        (increment_terms (scope_of scope.now).ring (place_tree target.now) (expr_tree value.now))) }
{
    match form_of(scope, target, value) {
        None => push_forward_plain(alloc, scope, line, atomic, target, value, forward),
        Some(_) => push_kept(alloc, line, atomic, target, value, forward),
    }
}

/// Adds the reverse of an assignment.
pub fn push_backward_assignment(
    alloc: Global,
    scope: &Scope<'_>,
    line: u32,
    atomic: bool,
    target: &Place,
    value: &Expr,
    reverse: &mut Items<AStmt>,
) -> Result<(), Memory>
    ensures { OnOk result (map astmt_tree reverse.new ≡ map astmt_tree reverse.old
        ++ reverse_rules.backward_assignment (scope_of scope.now) line atomic (place_tree target.now) (expr_tree value.now)
        (increment_terms (scope_of scope.now).ring (place_tree target.now) (expr_tree value.now))) }
{
    match form_of(scope, target, value) {
        None => push_backward_plain(alloc, scope, line, target, value, reverse),
        Some(form) => {
            push_backward_increment(alloc, scope, line, atomic, form, target, value, reverse)
        }
    }
}
