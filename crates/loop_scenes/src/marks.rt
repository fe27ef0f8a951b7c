//! A mark for each access of an expression, of an assignment or of a loop's bounds.

ghost use Rattle.std.specs.Prelude.{◌≡◌, ◌++◌, List, ℕ, OnOk};
ghost use Rattle.fl_ast.specs.Tree.{expr_tree, expr_trees, place_tree, cond_tree, step_tree};
ghost use Rattle.fl_ast.specs.Same.{same_expression};
ghost use Rattle.fl_types.specs.Sharing.{has_name as has_name_lem};
ghost use Rattle.fl_types.specs.Increment.{target_of, chain, first_of_sum, increment_terms};
ghost use Rattle.index_forms.specs.Increments.{adds_terms as adds_terms_lem};
ghost use Rattle.loop_scenes.specs.Scened.{scope_there};
ghost use Rattle.loop_scenes.specs.Marks as spec;

use fl_ast::{BinOp, Cond, Expr, Place};
use fl_base::{Items, Memory, Name};
use fl_types::{IncrementForm, NameSet, increment_form};
use index_forms::Scene;

pub fn has_name(name: &Name, names: &[Name]) -> bool
    ensures { result ≡ has_name_lem name.now names.now }
{
    names.iter().any(|other| name.is(other))
}

/// Marks an occurrence of the name, where it is an access.
fn push_mark(scene: &Scene, right: bool, name: &Name, marks: &mut Items<bool>) -> Result<(), Memory>
    ensures { OnOk result (marks.new ≡ marks.old ++ spec.mark (scope_there scene.now) right name.now) }
{
    if has_name(name, scene.unshared.as_slice()) {
        return Ok(());
    }
    marks.push(right)?;
    Ok(())
}

/// Marks the accesses of an expression.
#[cycle(push_marks)]
fn push_marks(
    scene: &Scene,
    right: bool,
    expr: &Expr,
    marks: &mut Items<bool>,
) -> Result<(), Memory>
    ensures { OnOk result (marks.new ≡ marks.old ++ spec.marks (scope_there scene.now) right (expr_tree expr.now)) }
{
    match expr {
        Expr::Lit { .. } => Ok(()),
        Expr::Get(place) => {
            push_all_marks(scene, right, place.subscripts.as_slice(), marks)?;
            push_mark(scene, right, &place.name, marks)?;
            Ok(())
        }
        Expr::Neg(inner) => push_marks(scene, right, inner.get(), marks),
        Expr::Bin {
            left,
            right: other,
            ..
        } => {
            push_marks(scene, right, left.get(), marks)?;
            push_marks(scene, right, other.get(), marks)?;
            Ok(())
        }
        Expr::Pow { base, .. } => push_marks(scene, right, base.get(), marks),
        Expr::Call { args, .. } => push_all_marks(scene, right, args.as_slice(), marks),
    }
}

#[cycle(push_marks)]
fn push_all_marks(
    scene: &Scene,
    right: bool,
    exprs: &[Expr],
    marks: &mut Items<bool>,
) -> Result<(), Memory>
    ensures { OnOk result (marks.new ≡ marks.old ++ spec.marks_all (scope_there scene.now) right (expr_trees exprs.now)) }
{
    for expr in exprs {
        push_marks(scene, right, expr, marks)?;
    }
    Ok(())
}

/// Marks the accesses of a condition, which are in no right side.
pub fn push_condition_marks(
    scene: &Scene,
    test: &Cond,
    marks: &mut Items<bool>,
) -> Result<(), Memory>
    ensures { OnOk result (marks.new ≡ marks.old ++ spec.condition_marks (scope_there scene.now) (cond_tree test.now)) }
{
    match test {
        Cond::Rel { left, right, .. } => {
            push_marks(scene, false, left, marks)?;
            push_marks(scene, false, right, marks)?;
            Ok(())
        }
        Cond::Not(inner) => push_condition_marks(scene, inner.get(), marks),
        Cond::And(left, right) => {
            push_condition_marks(scene, left.get(), marks)?;
            push_condition_marks(scene, right.get(), marks)?;
            Ok(())
        }
        Cond::Or(left, right) => {
            push_condition_marks(scene, left.get(), marks)?;
            push_condition_marks(scene, right.get(), marks)?;
            Ok(())
        }
    }
}

fn push_step_marks(
    scene: &Scene,
    step: &Option<Expr>,
    marks: &mut Items<bool>,
) -> Result<(), Memory>
    ensures { OnOk result (marks.new ≡ marks.old ++ spec.step_marks (scope_there scene.now) (step_tree step.now)) }
{
    match step {
        Some(step) => push_marks(scene, false, step, marks),
        None => Ok(()),
    }
}

/// Marks the accesses of a loop's bounds and step, which are in no right side.
#[tactic(auto, using(crate::proofs::Terms::three))]
pub fn push_bounds_marks(
    scene: &Scene,
    first: &Expr,
    last: &Expr,
    step: &Option<Expr>,
    marks: &mut Items<bool>,
) -> Result<(), Memory>
    ensures { OnOk result (marks.new ≡ marks.old ++ spec.bounds_marks (scope_there scene.now) (expr_tree first.now) (expr_tree last.now) (step_tree step.now)) }
{
    push_marks(scene, false, first, marks)?;
    push_marks(scene, false, last, marks)?;
    push_step_marks(scene, step, marks)?;
    Ok(())
}

fn is_target(target: &Place, value: &Expr) -> bool
    ensures { result ≡ same_expression (target_of (place_tree target.now)) (expr_tree value.now) }
{
    match value {
        Expr::Get(place) => target.same(place),
        _ => false,
    }
}

fn adds_terms(op: BinOp) -> bool
    ensures { result ≡ adds_terms_lem op }
{
    match op {
        BinOp::Add | BinOp::Sub => true,
        BinOp::Mul | BinOp::Div => false,
    }
}

/// Marks the accesses of a chain's further terms.
fn push_chain_marks(
    scene: &Scene,
    right: bool,
    target: &Place,
    value: &Expr,
    marks: &mut Items<bool>,
) -> Result<(), Memory>
    ensures { OnOk result (spec.WithTerms (scope_there scene.now) right (chain (target_of (place_tree target.now)) (expr_tree value.now)) marks.old marks.new) }
{
    match value {
        Expr::Bin {
            op,
            left,
            right: other,
        } => {
            if !adds_terms(*op) {
                return Ok(());
            }
            if is_target(target, left.get()) {
                push_marks(scene, right, other.get(), marks)?;
                return Ok(());
            }
            push_chain_marks(scene, right, target, left.get(), marks)?;
            push_marks(scene, right, other.get(), marks)?;
            Ok(())
        }
        _ => Ok(()),
    }
}

/// Marks the accesses of a sum's first term.
fn push_sum_marks(
    scene: &Scene,
    right: bool,
    target: &Place,
    value: &Expr,
    marks: &mut Items<bool>,
) -> Result<(), Memory>
    ensures { OnOk result (spec.WithTerms (scope_there scene.now) right (first_of_sum (target_of (place_tree target.now)) (expr_tree value.now)) marks.old marks.new) }
{
    match value {
        Expr::Bin {
            op: BinOp::Add,
            left,
            ..
        } => {
            push_marks(scene, right, left.get(), marks)?;
            Ok(())
        }
        _ => Ok(()),
    }
}

/// Marks the accesses of a value, or of an increment's terms.
#[tactic(auto, using(crate::proofs::Terms::chain_value, crate::proofs::Terms::sum_value, crate::proofs::Terms::plain_value, crate::proofs::Terms::other_value))]
fn push_value_marks(
    scene: &Scene,
    right: bool,
    target: &Place,
    value: &Expr,
    marks: &mut Items<bool>,
) -> Result<(), Memory>
    ensures { OnOk result (marks.new ≡ marks.old
        ++ spec.value_marks (scope_there scene.now) right (expr_tree value.now) (increment_terms (scope_there scene.now).ring (place_tree target.now) (expr_tree value.now))) }
{
    if !has_name(&target.name, scene.ring.as_slice()) {
        push_marks(scene, right, value, marks)?;
        return Ok(());
    }
    match increment_form(target, value) {
        Some(IncrementForm::Chain) => {
            push_chain_marks(scene, right, target, value, marks)?;
            Ok(())
        }
        Some(IncrementForm::Sum) => {
            push_sum_marks(scene, right, target, value, marks)?;
            Ok(())
        }
        None => {
            push_marks(scene, right, value, marks)?;
            Ok(())
        }
    }
}

/// Marks the accesses of an assignment: those in its right side by whether its target is active.
#[tactic(auto, using(crate::proofs::Terms::three))]
pub fn push_assignment_marks(
    scene: &Scene,
    active: &NameSet,
    target: &Place,
    value: &Expr,
    marks: &mut Items<bool>,
) -> Result<(), Memory>
    ensures { OnOk result (marks.new ≡ marks.old
        ++ spec.assignment_marks (scope_there scene.now) (λ x. has_name_lem x active.now.names) (place_tree target.now) (expr_tree value.now)) }
{
    let right = has_name(&target.name, active.names.as_slice());
    push_value_marks(scene, right, target, value, marks)?;
    push_all_marks(scene, false, target.subscripts.as_slice(), marks)?;
    push_mark(scene, false, &target.name, marks)?;
    Ok(())
}
