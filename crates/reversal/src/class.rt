//! The classes of names in a parallel loop.

ghost use Rattle.std.specs.Prelude.{◌≡◌};
ghost use Rattle.fl_ast.specs.Tree.{stmt_tree, stmt_trees, arm_trees};
ghost use Rattle.fl_types.specs.Sharing.{is_ring_kind as is_ring_kind_lem, is_ring_name, is_plus as is_plus_lem, sharing_in, varies as varies_lem, varies_in as varies_in_lem, varies_in_arms as varies_in_arms_lem};

use crate::name::has_name;
use fl_ast::{Arm, Decl, Directive, Kind, Name, Stmt};
use fl_types::Sharing;

pub fn is_ring_kind(kind: Kind) -> bool
    ensures { result ≡ is_ring_kind_lem kind }
{
    match kind {
        Kind::Ring => true,
        Kind::Index => false,
    }
}

/// Whether a name is declared with the ring kind.
pub fn is_ring(decls: &[Decl], name: &Name) -> bool
    ensures { result ≡ is_ring_name decls.now name.now }
{
    decls
        .iter()
        .any(|decl| name.is(&decl.name) && is_ring_kind(decl.kind))
}

/// Whether a name is the variable of a loop in a statement.
#[cycle(varies)]
fn varies(name: &Name, stmt: &Stmt) -> bool
    ensures { result ≡ varies_lem name.now (stmt_tree stmt.now) }
{
    match stmt {
        Stmt::Assign { .. } => false,
        Stmt::If { arms, other, .. } => {
            if varies_in_arms(name, arms.as_slice()) {
                return true;
            }
            varies_in(name, other.as_slice())
        }
        Stmt::Do { var, body, .. } => {
            if name.is(var) {
                return true;
            }
            varies_in(name, body.as_slice())
        }
    }
}

/// Whether a name is the variable of a loop in these statements.
#[cycle(varies)]
pub fn varies_in(name: &Name, stmts: &[Stmt]) -> bool
    ensures { result ≡ varies_in_lem name.now (stmt_trees stmts.now) }
{
    for stmt in stmts {
        if varies(name, stmt) {
            return true;
        }
    }
    false
}

#[cycle(varies)]
fn varies_in_arms(name: &Name, arms: &[Arm]) -> bool
    ensures { result ≡ varies_in_arms_lem name.now (arm_trees arms.now) }
{
    for arm in arms {
        if varies_in(name, arm.body.as_slice()) {
            return true;
        }
    }
    false
}

/// The class of a name in a parallel loop.
pub fn sharing(var: &Name, directive: &Directive, body: &[Stmt], name: &Name) -> Sharing
    ensures { result ≡ sharing_in var.now directive.now (stmt_trees body.now) name.now }
{
    if name.is(var) {
        return Sharing::LoopVar;
    }
    if varies_in(name, body) {
        return Sharing::LoopVar;
    }
    if has_name(name, directive.privates.as_slice()) {
        return Sharing::Private;
    }
    if has_name(name, directive.firsts.as_slice()) {
        return Sharing::First;
    }
    if has_name(name, directive.pluses.as_slice()) {
        return Sharing::Plus;
    }
    Sharing::Shared
}

pub fn is_plus(sharing: Sharing) -> bool
    ensures { result ≡ is_plus_lem sharing }
{
    match sharing {
        Sharing::Plus => true,
        Sharing::Shared | Sharing::Private | Sharing::First | Sharing::LoopVar => false,
    }
}
