ghost use Rattle.std.specs.Prelude.{◌≡◌};
ghost use Rattle.fl_ast.specs.Tree.{expr_tree, place_tree, expr_trees};
ghost use Rattle.fl_ast.specs.Same.{same_kind, same_operator, same_function, same_expression, same_expressions, same_designator, SameIsEqual};

use crate::expr::{Expr, Place};
use crate::kind::{BinOp, Fun, Kind};

#[tactic(auto, using(crate::proofs::SameLemmas::same_kind_flag))]
fn same_kind(one: Kind, other: Kind) -> bool
    ensures { result ≡ same_kind one other }
{
    one == other
}

#[tactic(auto, using(crate::proofs::SameLemmas::same_operator_flag))]
fn same_operator(one: BinOp, other: BinOp) -> bool
    ensures { result ≡ same_operator one other }
{
    one == other
}

#[tactic(auto, using(crate::proofs::SameLemmas::same_function_flag))]
fn same_function(one: Fun, other: Fun) -> bool
    ensures { result ≡ same_function one other }
{
    one == other
}

impl Expr {
    /// Whether both are the same tree, part by part.
    #[cycle(expr_same)]
    pub fn same(&self, other: &Expr) -> bool
        ensures { result ≡ same_expression (expr_tree self.now) (expr_tree other.now) }
    {
        match self {
            Expr::Lit { value, kind } => match other {
                Expr::Lit {
                    value: other_value,
                    kind: other_kind,
                } => *value == *other_value && same_kind(*kind, *other_kind),
                _ => false,
            },
            Expr::Get(place) => match other {
                Expr::Get(other_place) => place.same(other_place),
                _ => false,
            },
            Expr::Neg(inner) => match other {
                Expr::Neg(other_inner) => inner.get().same(other_inner.get()),
                _ => false,
            },
            Expr::Bin { op, left, right } => match other {
                Expr::Bin {
                    op: other_op,
                    left: other_left,
                    right: other_right,
                } => same_operator(*op, *other_op)
                    && left.get().same(other_left.get())
                    && right.get().same(other_right.get()),
                _ => false,
            },
            Expr::Pow { base, exponent } => match other {
                Expr::Pow {
                    base: other_base,
                    exponent: other_exponent,
                } => *exponent == *other_exponent && base.get().same(other_base.get()),
                _ => false,
            },
            Expr::Call { fun, args } => match other {
                Expr::Call {
                    fun: other_fun,
                    args: other_args,
                } => same_function(*fun, *other_fun)
                    && same_exprs(args.as_slice(), other_args.as_slice()),
                _ => false,
            },
        }
    }
}

impl Place {
    /// Whether both are the same name with the same subscripts.
    #[cycle(expr_same)]
    pub fn same(&self, other: &Place) -> bool
        ensures { result ≡ same_designator (place_tree self.now) (place_tree other.now) }
    {
        self.name.is(&other.name)
            && same_exprs(self.subscripts.as_slice(), other.subscripts.as_slice())
    }
}

#[cycle(expr_same)]
#[tactic(auto, using(crate::proofs::LengthLemmas::other_length))]
fn same_exprs(one: &[Expr], other: &[Expr]) -> bool
    ensures { result ≡ same_expressions (expr_trees one.now) (expr_trees other.now) }
{
    if one.len() != other.len() {
        return false;
    }
    for i in 0..one.len() {
        if !one[i].same(&other[i]) {
            return false;
        }
    }
    true
}

/// The test on expressions answers true exactly at equal trees.
pub fn same_is_equal()
    ensures { SameIsEqual }
{}
