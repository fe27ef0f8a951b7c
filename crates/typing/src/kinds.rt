//! Kinds of expressions.

ghost use Rattle.std.specs.Prelude.{◌≡◌, not};
ghost use Rattle.fl_ast.specs.Same.{same_kind};
ghost use Rattle.fl_ast.specs.Tree.{expr_tree, expr_trees};
ghost use Rattle.fl_types.specs.Kinds.{kind_of_expression, kinds_of_expressions, kind_of_name as kind_of_name_lem, wider_kind, widest_kind, is_index_kind, declared_names};
ghost use Rattle.fl_types.specs.Rows.{any_ring, differ as differ_lem};

use fl_ast::{Expr, Kind, Name};
use known_names::Indexed;

pub(crate) fn kind_of_name(name: &Name, program: &Indexed<'_>) -> Kind
    ensures { result ≡ kind_of_name_lem (declared_names program.now.decls) name.now }
{
    if program.is_data(name) {
        Kind::Ring
    } else {
        Kind::Index
    }
}

fn wider(first: Kind, second: Kind) -> Kind
    ensures { result ≡ wider_kind first second }
{
    match first {
        Kind::Ring => Kind::Ring,
        Kind::Index => second,
    }
}

#[cycle(kind)]
pub(crate) fn kind(expr: &Expr, program: &Indexed<'_>) -> Kind
    ensures { result ≡ kind_of_expression (declared_names program.now.decls) (expr_tree expr.now) }
{
    match expr {
        Expr::Lit { kind, .. } => *kind,
        Expr::Get(place) => kind_of_name(&place.name, program),
        Expr::Neg(inner) => kind(inner.get(), program),
        Expr::Bin { left, right, .. } => {
            wider(kind(left.get(), program), kind(right.get(), program))
        }
        Expr::Pow { base, .. } => kind(base.get(), program),
        Expr::Call { args, .. } => widest(args.as_slice(), program),
    }
}

#[cycle(kind)]
fn widest(args: &[Expr], program: &Indexed<'_>) -> Kind
    ensures { result ≡ widest_kind (kinds_of_expressions (declared_names program.now.decls) (expr_trees args.now)) }
{
    for arg in args {
        match kind(arg, program) {
            Kind::Ring => return Kind::Ring,
            Kind::Index => {}
        }
    }
    Kind::Index
}

/// Whether the expression is data.
pub(crate) fn is_data(expr: &Expr, program: &Indexed<'_>) -> bool
    ensures { result ≡ not (is_index_kind (kind_of_expression (declared_names program.now.decls) (expr_tree expr.now))) }
{
    match kind(expr, program) {
        Kind::Ring => true,
        Kind::Index => false,
    }
}

pub(crate) fn some_data(args: &[Expr], program: &Indexed<'_>) -> bool
    ensures { result ≡ any_ring (kinds_of_expressions (declared_names program.now.decls) (expr_trees args.now)) }
{
    for arg in args {
        if is_data(arg, program) {
            return true;
        }
    }
    false
}

fn are_two_kinds(first: Kind, second: Kind) -> bool
    ensures { result ≡ not (same_kind first second) }
{
    match (first, second) {
        (Kind::Index, Kind::Index) | (Kind::Ring, Kind::Ring) => false,
        (Kind::Index, Kind::Ring) | (Kind::Ring, Kind::Index) => true,
    }
}

/// Whether the expressions are two, of two kinds.
pub(crate) fn differ(args: &[Expr], program: &Indexed<'_>) -> bool
    ensures { result ≡ differ_lem (kinds_of_expressions (declared_names program.now.decls) (expr_trees args.now)) }
{
    match args {
        [first, second] => are_two_kinds(kind(first, program), kind(second, program)),
        _ => false,
    }
}
