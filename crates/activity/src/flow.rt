//! From which names data flows to which.

ghost use Rattle.std.specs.Prelude.{◌≡◌, ◌++◌, ◌∷◌, [], if◌then◌else◌, OnOk};
ghost use Rattle.fl_ast.specs.Tree.{expr_tree, expr_trees, place_tree, stmt_tree, stmt_trees, arm_trees};
ghost use Rattle.fl_types.specs.Sharing.{is_ring_kind as is_ring_kind_lem, is_ring_name};
ghost use Rattle.reachability.specs.Named.{links_of};
ghost use Rattle.activity.specs.Active as spec;

use fl_ast::{Arm, Decl, Expr, Kind, Name, Place, Stmt};
use fl_base::{Items, Memory};
use reachability::{Link, push_link};

fn is_ring_kind(kind: Kind) -> bool
    ensures { result ≡ is_ring_kind_lem kind }
{
    match kind {
        Kind::Ring => true,
        Kind::Index => false,
    }
}

pub fn is_ring(decls: &[Decl], name: &Name) -> bool
    ensures { result ≡ is_ring_name decls.now name.now }
{
    decls
        .iter()
        .any(|decl| name.is(&decl.name) && is_ring_kind(decl.kind))
}

/// Adds the edges from the names of a right side to the target.
#[cycle(flows_to)]
fn push_flows_to(
    decls: &[Decl],
    target: &Name,
    expr: &Expr,
    links: &mut Items<Link>,
) -> Result<(), Memory>
    ensures { OnOk result (links.new ≡ links.old ++ links_of decls.now (spec.flows_to (is_ring_name decls.now) target.now (expr_tree expr.now))) }
{
    match expr {
        Expr::Lit { .. } => Ok(()),
        Expr::Get(place) => push_flow_from(decls, target, place, links),
        Expr::Neg(inner) => push_flows_to(decls, target, inner.get(), links),
        Expr::Bin { left, right, .. } => {
            push_flows_to(decls, target, left.get(), links)?;
            push_flows_to(decls, target, right.get(), links)?;
            Ok(())
        }
        Expr::Pow { base, .. } => push_flows_to(decls, target, base.get(), links),
        Expr::Call { args, .. } => push_all_flows_to(decls, target, args.as_slice(), links),
    }
}

#[cycle(flows_to)]
fn push_all_flows_to(
    decls: &[Decl],
    target: &Name,
    exprs: &[Expr],
    links: &mut Items<Link>,
) -> Result<(), Memory>
    ensures { OnOk result (links.new ≡ links.old ++ links_of decls.now (spec.all_flow_to (is_ring_name decls.now) target.now (expr_trees exprs.now))) }
{
    for expr in exprs {
        push_flows_to(decls, target, expr, links)?;
    }
    Ok(())
}

fn push_flow_from(
    decls: &[Decl],
    target: &Name,
    place: &Place,
    links: &mut Items<Link>,
) -> Result<(), Memory>
    ensures { OnOk result (links.new ≡ links.old ++ links_of decls.now
        (if is_ring_name decls.now (place_tree place.now).name then spec.edge_to target.now (place_tree place.now).name ∷ [] else [])) }
{
    if is_ring(decls, &place.name) {
        push_link(decls, &place.name, target, links)
    } else {
        Ok(())
    }
}

/// Adds the edges of a statement.
#[cycle(flows)]
fn push_flows(decls: &[Decl], stmt: &Stmt, links: &mut Items<Link>) -> Result<(), Memory>
    ensures { OnOk result (links.new ≡ links.old ++ links_of decls.now (spec.flows (is_ring_name decls.now) (stmt_tree stmt.now))) }
{
    match stmt {
        Stmt::Assign { target, value, .. } => {
            if is_ring(decls, &target.name) {
                push_flows_to(decls, &target.name, value, links)
            } else {
                Ok(())
            }
        }
        Stmt::If { arms, other, .. } => {
            push_flows_in_arms(decls, arms.as_slice(), links)?;
            push_flows_in(decls, other.as_slice(), links)?;
            Ok(())
        }
        Stmt::Do { body, .. } => push_flows_in(decls, body.as_slice(), links),
    }
}

/// Adds the edges of statements.
#[cycle(flows)]
pub fn push_flows_in(decls: &[Decl], stmts: &[Stmt], links: &mut Items<Link>) -> Result<(), Memory>
    ensures { OnOk result (links.new ≡ links.old ++ links_of decls.now (spec.flows_in (is_ring_name decls.now) (stmt_trees stmts.now))) }
{
    for stmt in stmts {
        push_flows(decls, stmt, links)?;
    }
    Ok(())
}

#[cycle(flows)]
fn push_flows_in_arms(decls: &[Decl], arms: &[Arm], links: &mut Items<Link>) -> Result<(), Memory>
    ensures { OnOk result (links.new ≡ links.old ++ links_of decls.now (spec.flows_in_arms (is_ring_name decls.now) (arm_trees arms.now))) }
{
    for arm in arms {
        push_flows_in(decls, arm.body.as_slice(), links)?;
    }
    Ok(())
}
