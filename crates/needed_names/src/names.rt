//! The names in expressions, as positions of their declarations.

ghost use Rattle.std.specs.Prelude.{◌≡◌, ◌++◌, ◌∷◌, IfOk, OnOk};
ghost use Rattle.fl_ast.specs.Tree.{expr_tree, expr_trees, place_tree};
ghost use Rattle.reachability.specs.Named.{index_in, indexes_of};
ghost use Rattle.adjoint_rules.specs.Needed.{names_in, names_in_all};

use fl_ast::{Decl, Expr, Name, Place};
use fl_base::{Items, Memory};
use reachability::push_index;
use std::alloc::Global;

/// The position of a name's first declaration.
pub fn index_of(decls: &[Decl], name: &Name) -> Option<usize>
    ensures { result ≡ index_in decls.now name.now }
{
    decls.iter().position(|decl| decl.name.is(name))
}

#[cycle(names)]
pub fn push_names(decls: &[Decl], expr: &Expr, nodes: &mut Items<usize>) -> Result<(), Memory>
    ensures { OnOk result (nodes.new ≡ nodes.old ++ indexes_of decls.now (names_in (expr_tree expr.now))) }
{
    match expr {
        Expr::Lit { .. } => Ok(()),
        Expr::Get(place) => push_place(decls, place, nodes),
        Expr::Neg(inner) => push_names(decls, inner.get(), nodes),
        Expr::Bin { left, right, .. } => {
            push_names(decls, left.get(), nodes)?;
            push_names(decls, right.get(), nodes)?;
            Ok(())
        }
        Expr::Pow { base, .. } => push_names(decls, base.get(), nodes),
        Expr::Call { args, .. } => push_all_names(decls, args.as_slice(), nodes),
    }
}

#[cycle(names)]
fn push_place(decls: &[Decl], place: &Place, nodes: &mut Items<usize>) -> Result<(), Memory>
    ensures { OnOk result (nodes.new ≡ nodes.old ++ indexes_of decls.now ((place_tree place.now).name ∷ names_in_all (place_tree place.now).subscripts)) }
{
    push_index(decls, &place.name, nodes)?;
    push_all_names(decls, place.subscripts.as_slice(), nodes)?;
    Ok(())
}

#[cycle(names)]
pub fn push_all_names(
    decls: &[Decl],
    exprs: &[Expr],
    nodes: &mut Items<usize>,
) -> Result<(), Memory>
    ensures { OnOk result (nodes.new ≡ nodes.old ++ indexes_of decls.now (names_in_all (expr_trees exprs.now))) }
{
    for expr in exprs {
        push_names(decls, expr, nodes)?;
    }
    Ok(())
}

/// These positions and those of an expression's names.
pub fn with_names(
    alloc: Global,
    decls: &[Decl],
    at: &[usize],
    expr: &Expr,
) -> Result<Items<usize>, Memory>
    ensures { IfOk result (λ all. all ≡ at.now ++ indexes_of decls.now (names_in (expr_tree expr.now))) }
{
    let mut all = Items::from_slice(alloc, at)?;
    push_names(decls, expr, &mut all)?;
    Ok(all)
}

/// These positions and those of all the expressions' names.
pub fn with_all_names(
    alloc: Global,
    decls: &[Decl],
    at: &[usize],
    exprs: &[Expr],
) -> Result<Items<usize>, Memory>
    ensures { IfOk result (λ all. all ≡ at.now ++ indexes_of decls.now (names_in_all (expr_trees exprs.now))) }
{
    let mut all = Items::from_slice(alloc, at)?;
    push_all_names(decls, exprs, &mut all)?;
    Ok(all)
}
