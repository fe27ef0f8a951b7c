//! Assignments as increments.

ghost use Rattle.std.specs.Prelude.{◌≡◌};
ghost use Rattle.std.specs.Option.{option_copied};
ghost use Rattle.fl_ast.specs.Same.{same_expression};
ghost use Rattle.fl_ast.specs.Tree.{expr_tree, place_tree};
ghost use Rattle.fl_types.specs.Increment.{target_of, increment_terms};
ghost use Rattle.fl_types.specs.Rows as rows;
ghost use Rattle.fl_types.specs.Sharing.{is_ring_name as is_ring_name_lem};
ghost use Rattle.typing.specs.Firsts as firsts;
ghost use Rattle.typing.specs.Updates as updates;

use fl_ast::{BinOp, Expr, Name, Place};
use fl_types::{IncrementForm, increment_form};
use known_names::Indexed;

fn is_target(value: &Expr, target: &Place) -> bool
    ensures { result ≡ same_expression (target_of (place_tree target.now)) (expr_tree value.now) }
{
    match value {
        Expr::Get(place) => target.same(place),
        _ => false,
    }
}

fn chain_minus(value: &Expr, target: &Place) -> bool
    ensures { result ≡ updates.chain_minus (target_of (place_tree target.now)) (expr_tree value.now) }
{
    match value {
        Expr::Bin { op, left, .. } => match op {
            BinOp::Add => {
                if is_target(left.get(), target) {
                    return false;
                }
                chain_minus(left.get(), target)
            }
            BinOp::Sub => true,
            BinOp::Mul | BinOp::Div => false,
        },
        _ => false,
    }
}

fn is_long_chain(value: &Expr, target: &Place) -> bool
    ensures { result ≡ updates.is_long_chain (target_of (place_tree target.now)) (expr_tree value.now) }
{
    match value {
        Expr::Bin { left, .. } => !is_target(left.get(), target),
        _ => false,
    }
}

/// Whether an atomic update can't do the assignment: it is no increment, or one by several terms with a minus sign.
#[tactic(auto, using(crate::proofs::Terms::no_form, crate::proofs::Trees::places))]
pub(crate) fn is_no_update(program: &Indexed<'_>, target: &Place, value: &Expr) -> bool
    ensures { result ≡ rows.is_no_update (increment_terms (is_ring_name_lem program.now.decls) (place_tree target.now) (expr_tree value.now)) }
{
    if !program.is_data(&target.name) {
        return true;
    }
    match increment_form(target, value) {
        None => true,
        Some(IncrementForm::Sum) => false,
        Some(IncrementForm::Chain) => chain_minus(value, target) && is_long_chain(value, target),
    }
}

/// The target's name, where the assignment is an increment.
#[tactic(auto, using(crate::proofs::Terms::no_form, crate::proofs::Trees::places))]
pub(crate) fn own_of<'a>(program: &Indexed<'_>, target: &'a Place, value: &Expr) -> Option<&'a Name>
    ensures { option_copied result ≡ firsts.own_of program.now (place_tree target.now) (expr_tree value.now) }
{
    if !program.is_data(&target.name) {
        return None;
    }
    match increment_form(target, value) {
        None => None,
        Some(_) => Some(&target.name),
    }
}
