ghost use Rattle.std.specs.Prelude.{◌≡◌, is_some};
ghost use Rattle.fl_ast.specs.Same.{same_expression};
ghost use Rattle.fl_ast.specs.Tree.{expr_tree, place_tree};
ghost use Rattle.fl_types.specs.Increment.{target_of, chain, first_of_sum, if_free, goes_on as goes_on_lem, ends as ends_lem, increment_form as increment_form_lem};

use fl_ast::{BinOp, Expr, Place};

/// How an assignment adds to its target.
#[derive(Clone, Copy, Debug, PartialEq, Eq)]
pub enum IncrementForm {
    /// `t = t + r - s ..`
    Chain,
    /// `t = r + t`
    Sum,
}

fn is_target(target: &Place, value: &Expr) -> bool
    ensures { result ≡ same_expression (target_of (place_tree target.now)) (expr_tree value.now) }
{
    match value {
        Expr::Get(place) => target.same(place),
        _ => false,
    }
}

/// Whether the value is a left-grouped chain of sums and differences that begins with the target, the further terms
/// being free of its name.
#[cycle(increment)]
fn is_chain(value: &Expr, target: &Place) -> bool
    ensures { result ≡ is_some (if_free (place_tree target.now).name (chain (target_of (place_tree target.now)) (expr_tree value.now))) }
{
    match value {
        Expr::Bin { op, left, right } => match op {
            BinOp::Add => goes_on(left.get(), right.get(), target),
            BinOp::Sub => goes_on(left.get(), right.get(), target),
            _ => false,
        },
        _ => false,
    }
}

/// Whether a term after the target or a chain makes a chain.
#[cycle(increment)]
fn goes_on(front: &Expr, term: &Expr, target: &Place) -> bool
    ensures { result ≡ goes_on_lem (place_tree target.now) (expr_tree front.now) (expr_tree term.now) }
{
    if term.mentions(target.name.bytes()) {
        return false;
    }
    if is_target(target, front) {
        return true;
    }
    is_chain(front, target)
}

/// Whether the value is a sum whose second term is the target, the first being free of its name.
fn is_sum(value: &Expr, target: &Place) -> bool
    ensures { result ≡ is_some (if_free (place_tree target.now).name (first_of_sum (target_of (place_tree target.now)) (expr_tree value.now))) }
{
    match value {
        Expr::Bin {
            op: BinOp::Add,
            left,
            right,
        } => ends(left.get(), right.get(), target),
        _ => false,
    }
}

/// Whether the target after a term makes a sum.
fn ends(term: &Expr, end: &Expr, target: &Place) -> bool
    ensures { result ≡ ends_lem (place_tree target.now) (expr_tree term.now) (expr_tree end.now) }
{
    if term.mentions(target.name.bytes()) {
        return false;
    }
    is_target(target, end)
}

/// The form of an increment, where the value only adds to the target.
pub fn increment_form(target: &Place, value: &Expr) -> Option<IncrementForm>
    ensures { result ≡ increment_form_lem (place_tree target.now) (expr_tree value.now) }
{
    if is_chain(value, target) {
        Some(IncrementForm::Chain)
    } else if is_sum(value, target) {
        Some(IncrementForm::Sum)
    } else {
        None
    }
}
