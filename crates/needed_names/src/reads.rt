//! What the increments of an expression's occurrences read.

ghost use Rattle.std.specs.Prelude.{◌≡◌, ◌++◌, if◌then◌else◌, [], IfOk, OnOk};
ghost use Rattle.fl_ast.specs.Tree.{expr_tree, expr_trees, place_tree};
ghost use Rattle.fl_types.specs.Sharing.{has_name as has_name_lem};
ghost use Rattle.reachability.specs.Named.{indexes_of};
ghost use Rattle.adjoint_rules.specs.Needed.{names_in_all};
ghost use Rattle.needed_names.specs.Reads as spec;

use crate::names::{with_all_names, with_names};
use fl_ast::{BinOp, Decl, Expr, Fun, Name, Place};
use fl_base::{Items, Memory};
use fl_types::NameSet;
use std::alloc::Global;

pub fn has_name(name: &Name, names: &[Name]) -> bool
    ensures { result ≡ has_name_lem name.now names.now }
{
    names.iter().any(|other| name.is(other))
}

fn is_division(op: BinOp) -> bool
    ensures { result ≡ spec.is_division op }
{
    match op {
        BinOp::Div => true,
        BinOp::Add | BinOp::Sub | BinOp::Mul => false,
    }
}

/// What an operand's occurrences read by the other operand.
fn beside(
    alloc: Global,
    decls: &[Decl],
    op: BinOp,
    other: &Expr,
    at: &[usize],
) -> Result<Items<usize>, Memory>
    ensures { IfOk result (λ all. all ≡ at.now ++ indexes_of decls.now (spec.beside op (expr_tree other.now))) }
{
    match op {
        BinOp::Mul => with_names(alloc, decls, at, other),
        BinOp::Add | BinOp::Sub | BinOp::Div => Items::from_slice(alloc, at),
    }
}

/// What a base's occurrences read by the power.
fn raised(
    alloc: Global,
    decls: &[Decl],
    exponent: u32,
    base: &Expr,
    at: &[usize],
) -> Result<Items<usize>, Memory>
    ensures { IfOk result (λ all. all ≡ at.now ++ indexes_of decls.now (spec.raised exponent (expr_tree base.now))) }
{
    if exponent <= 1 {
        Items::from_slice(alloc, at)
    } else {
        with_names(alloc, decls, at, base)
    }
}

fn is_taken(fun: Fun, count: usize) -> bool
    ensures { result ≡ spec.is_taken fun count }
{
    match fun {
        Fun::Max | Fun::Min => count == 2,
        Fun::Abs => count == 1,
        Fun::Mod => false,
    }
}

/// Adds what the increment of a place's adjoint reads, where its name is active.
fn push_place_reads(
    alloc: Global,
    decls: &[Decl],
    active: &NameSet,
    place: &Place,
    at: &[usize],
    nodes: &mut Items<usize>,
) -> Result<(), Memory>
    ensures { OnOk result (nodes.new ≡ nodes.old
        ++ (if has_name_lem (place_tree place.now).name active.now.names then at.now ++ indexes_of decls.now (names_in_all (place_tree place.now).subscripts) else [])) }
{
    if has_name(&place.name, active.names.as_slice()) {
        nodes.append(with_all_names(alloc, decls, at, place.subscripts.as_slice())?)?;
    }
    Ok(())
}

/// Adds what the increments of an expression's occurrences read, `at` being what its factors so far have.
#[cycle(reads)]
pub fn push_reads(
    alloc: Global,
    decls: &[Decl],
    active: &NameSet,
    expr: &Expr,
    at: &[usize],
    nodes: &mut Items<usize>,
) -> Result<(), Memory>
    ensures { OnOk result (nodes.new ≡ nodes.old ++ spec.reads decls.now (λ x. has_name_lem x active.now.names) (expr_tree expr.now) at.now) }
{
    match expr {
        Expr::Lit { .. } => Ok(()),
        Expr::Get(place) => push_place_reads(alloc, decls, active, place, at, nodes),
        Expr::Neg(inner) => push_reads(alloc, decls, active, inner.get(), at, nodes),
        Expr::Bin { op, left, right } => {
            if is_division(*op) {
                return Ok(());
            }
            let (left, right) = (left.get(), right.get());
            let by_right = beside(alloc, decls, *op, right, at)?;
            push_reads(alloc, decls, active, left, by_right.as_slice(), nodes)?;
            let by_left = beside(alloc, decls, *op, left, at)?;
            push_reads(alloc, decls, active, right, by_left.as_slice(), nodes)
        }
        Expr::Pow { base, exponent } => {
            let base = base.get();
            let by_power = raised(alloc, decls, *exponent, base, at)?;
            push_reads(alloc, decls, active, base, by_power.as_slice(), nodes)
        }
        Expr::Call { fun, args } => {
            let args = args.as_slice();
            if !is_taken(*fun, args.len()) {
                return Ok(());
            }
            let by_test = with_all_names(alloc, decls, at, args)?;
            push_all_reads(alloc, decls, active, args, by_test.as_slice(), nodes)
        }
    }
}

#[cycle(reads)]
fn push_all_reads(
    alloc: Global,
    decls: &[Decl],
    active: &NameSet,
    exprs: &[Expr],
    at: &[usize],
    nodes: &mut Items<usize>,
) -> Result<(), Memory>
    ensures { OnOk result (nodes.new ≡ nodes.old ++ spec.all_read decls.now (λ x. has_name_lem x active.now.names) (expr_trees exprs.now) at.now) }
{
    for expr in exprs {
        push_reads(alloc, decls, active, expr, at, nodes)?;
    }
    Ok(())
}
