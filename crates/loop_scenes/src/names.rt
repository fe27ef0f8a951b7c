//! Names that trees write, and names by their kinds.

ghost use Rattle.std.specs.Prelude.{◌≡◌, ◌++◌, ◌∷◌, [], true, map, OnOk, IfOk};
ghost use Rattle.fl_ast.specs.Tree.{stmt_tree, stmt_trees, arm_trees};
ghost use Rattle.fl_types.specs.Sharing.{is_ring_kind as is_ring_kind_lem};
ghost use Rattle.index_forms.specs.Loops.{names_by, names_in, names_in_arms};
ghost use Rattle.loop_accesses.specs.Views.{referred};
ghost use Rattle.loop_scenes.specs.Scened.{ring_names as ring_names_lem};

use fl_ast::{Arm, Decl, Kind, Stmt};
use fl_base::{Items, Memory, Name};
use std::alloc::Global;

pub fn push_name(alloc: Global, name: &Name, names: &mut Items<Name>) -> Result<(), Memory>
    ensures { OnOk result (names.new ≡ names.old ++ name.now ∷ []) }
{
    names.push(name.clone(alloc)?)?;
    Ok(())
}

/// Adds the names that a statement writes: variables of loops and, where asked for, targets of assignments.
#[cycle(names)]
fn push_names_by(
    alloc: Global,
    targets: bool,
    stmt: &Stmt,
    names: &mut Items<Name>,
) -> Result<(), Memory>
    ensures { OnOk result (names.new ≡ names.old ++ names_by targets (stmt_tree stmt.now)) }
{
    match stmt {
        Stmt::Assign { target, .. } => {
            if targets {
                push_name(alloc, &target.name, names)?;
            }
            Ok(())
        }
        Stmt::If { arms, other, .. } => {
            push_names_in_arms(alloc, targets, arms.as_slice(), names)?;
            push_names_in(alloc, targets, other.as_slice(), names)?;
            Ok(())
        }
        Stmt::Do { var, body, .. } => {
            push_name(alloc, var, names)?;
            push_names_in(alloc, targets, body.as_slice(), names)?;
            Ok(())
        }
    }
}

/// Adds the names that statements write, in textual order.
#[cycle(names)]
pub fn push_names_in(
    alloc: Global,
    targets: bool,
    stmts: &[Stmt],
    names: &mut Items<Name>,
) -> Result<(), Memory>
    ensures { OnOk result (names.new ≡ names.old ++ names_in targets (stmt_trees stmts.now)) }
{
    for stmt in stmts {
        push_names_by(alloc, targets, stmt, names)?;
    }
    Ok(())
}

#[cycle(names)]
fn push_names_in_arms(
    alloc: Global,
    targets: bool,
    arms: &[Arm],
    names: &mut Items<Name>,
) -> Result<(), Memory>
    ensures { OnOk result (names.new ≡ names.old ++ names_in_arms targets (arm_trees arms.now)) }
{
    for arm in arms {
        push_names_in(alloc, targets, arm.body.as_slice(), names)?;
    }
    Ok(())
}

/// The names that statements write.
pub fn written_in(alloc: Global, stmts: &[Stmt]) -> Result<Items<Name>, Memory>
    ensures { IfOk result (λ names. names ≡ names_in true (stmt_trees stmts.now)) }
{
    let mut names = Items::new(alloc);
    push_names_in(alloc, true, stmts, &mut names)?;
    Ok(names)
}

/// Adds copies of the names.
pub fn push_all(alloc: Global, more: &[Name], names: &mut Items<Name>) -> Result<(), Memory>
    ensures { OnOk result (names.new ≡ names.old ++ more.now) }
{
    for name in more {
        push_name(alloc, name, names)?;
    }
    Ok(())
}

/// Adds copies of the names that are referred to.
pub fn push_referred(alloc: Global, more: &[&Name], names: &mut Items<Name>) -> Result<(), Memory>
    ensures { OnOk result (names.new ≡ names.old ++ map referred more.now) }
{
    for i in 0..more.len() {
        push_name(alloc, more[i], names)?;
    }
    Ok(())
}

fn is_ring_kind(kind: Kind) -> bool
    ensures { result ≡ is_ring_kind_lem kind }
{
    match kind {
        Kind::Ring => true,
        Kind::Index => false,
    }
}

fn push_ring_names(alloc: Global, decls: &[Decl], names: &mut Items<Name>) -> Result<(), Memory>
    ensures { OnOk result (names.new ≡ names.old ++ ring_names_lem decls.now) }
{
    for decl in decls {
        if is_ring_kind(decl.kind) {
            push_name(alloc, &decl.name, names)?;
        }
    }
    Ok(())
}

/// The names that are declared with the ring kind.
pub fn ring_names(alloc: Global, decls: &[Decl]) -> Result<Items<Name>, Memory>
    ensures { IfOk result (λ names. names ≡ ring_names_lem decls.now) }
{
    let mut names = Items::new(alloc);
    push_ring_names(alloc, decls, &mut names)?;
    Ok(names)
}
