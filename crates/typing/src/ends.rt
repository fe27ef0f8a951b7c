//! What is wrong with what ends at a name or number.

ghost use Rattle.std.specs.Prelude.{◌≡◌, ◌||◌};
ghost use Rattle.fl_ast.specs.Tree.{expr_tree, expr_trees, place_tree};
ghost use Rattle.fl_types.specs.Declarations.{has_none as has_none_lem};
ghost use Rattle.typing.specs.Firsts as firsts;
ghost use Rattle.typing.specs.Views.{around_of};

use crate::around::{Around, Ends};
use crate::kinds::{differ, is_data, kind_of_name, some_data};
use crate::updates::is_no_update;
use fl_ast::{BinOp, Expr, Fun, Kind, Place};
use known_names::Indexed;

pub(crate) const NOTHING: Ends = Ends {
    clash: false,
    division: false,
    index: false,
    atomic: false,
};

fn with_clash(clash: bool, ends: Ends) -> Ends
    ensures { result ≡ firsts.with_clash clash ends }
{
    Ends {
        clash: clash || ends.clash,
        ..ends
    }
}

fn with_division(division: bool, ends: Ends) -> Ends
    ensures { result ≡ firsts.with_division division ends }
{
    Ends {
        division: division || ends.division,
        ..ends
    }
}

fn with_index(index: bool, ends: Ends) -> Ends
    ensures { result ≡ firsts.with_index index ends }
{
    Ends {
        index: index || ends.index,
        ..ends
    }
}

#[tactic(auto, using(crate::proofs::Lists::none_last))]
/// What ends with the last of some expressions, where these stand behind one of them.
pub(crate) fn at_last(behind: &[Expr], ends: Ends) -> Ends
    ensures { result ≡ firsts.at_last (expr_trees behind.now) ends }
{
    match behind {
        [] => ends,
        [_, ..] => NOTHING,
    }
}

fn operates_on_data(program: &Indexed<'_>, left: &Expr, right: &Expr) -> bool
    ensures { result ≡ firsts.is_data program.now (expr_tree left.now) || firsts.is_data program.now (expr_tree right.now) }
{
    is_data(left, program) || is_data(right, program)
}

pub(crate) fn with_operation(
    program: &Indexed<'_>,
    op: BinOp,
    left: &Expr,
    right: &Expr,
    ends: Ends,
) -> Ends
    ensures { result ≡ firsts.with_operation program.now op (expr_tree left.now) (expr_tree right.now) ends }
{
    match op {
        BinOp::Div => with_division(operates_on_data(program, left, right), ends),
        BinOp::Add | BinOp::Sub | BinOp::Mul => ends,
    }
}

pub(crate) fn with_call(program: &Indexed<'_>, fun: Fun, args: &[Expr], ends: Ends) -> Ends
    ensures { result ≡ firsts.with_call program.now fun (expr_trees args.now) ends }
{
    match fun {
        Fun::Max => with_clash(differ(args, program), ends),
        Fun::Min => with_clash(differ(args, program), ends),
        Fun::Mod => with_division(some_data(args, program), ends),
        Fun::Abs => ends,
    }
}

/// With an expression where an index is due.
pub(crate) fn as_index(program: &Indexed<'_>, expr: &Expr, ends: Ends) -> Ends
    ensures { result ≡ firsts.with_index (firsts.is_data program.now (expr_tree expr.now)) ends }
{
    with_index(is_data(expr, program), ends)
}

fn takes_data(program: &Indexed<'_>, target: &Place, value: &Expr) -> bool
    ensures { result ≡ firsts.takes_data program.now (place_tree target.now) (expr_tree value.now) }
{
    match kind_of_name(&target.name, program) {
        Kind::Index => is_data(value, program),
        Kind::Ring => false,
    }
}

fn is_bad_update(
    program: &Indexed<'_>,
    around: &Around<'_, '_>,
    atomic: bool,
    target: &Place,
    value: &Expr,
) -> bool
    ensures { result ≡ firsts.is_bad_update program.now (around_of around.now) atomic (place_tree target.now) (expr_tree value.now) }
{
    if !atomic {
        return false;
    }
    match &around.parallel {
        None => true,
        Some(_) => is_no_update(program, target, value),
    }
}

pub(crate) fn ends_of_assignment(
    program: &Indexed<'_>,
    around: &Around<'_, '_>,
    atomic: bool,
    target: &Place,
    value: &Expr,
) -> Ends
    ensures { result ≡ firsts.ends_of_assignment program.now (around_of around.now) atomic (place_tree target.now) (expr_tree value.now) }
{
    Ends {
        index: takes_data(program, target, value),
        atomic: is_bad_update(program, around, atomic, target, value),
        ..NOTHING
    }
}
