//! What a typed program says of its names, none of which takes memory.

ghost use Rattle.std.specs.Prelude.{◌≡◌, ◌||◌, bytes_eq};
ghost use Rattle.std.specs.Option.{option_copied};
ghost use Rattle.fl_ast.specs.Tree.{stmt_tree, stmt_trees, arm_trees};
ghost use Rattle.fl_types.specs.Sharing as sharing;
ghost use Rattle.fl_types.specs.Surface as surface;
ghost use Rattle.fl_types.specs.WellTyped as typed;

use crate::arguments::{has_name, is_ring_kind};
use crate::sharing::Sharing;
use fl_ast::{Arm, Decl, Directive, Kind, Name, Stmt};

fn declaration<'a>(decls: &'a [Decl], name: &Name) -> Option<&'a Decl>
    ensures { option_copied result ≡ typed.declaration_of decls.now name.now }
{
    decls.iter().find(|decl| name.is(&decl.name))
}

pub(crate) fn kind_declared(decls: &[Decl], name: &Name) -> Option<Kind>
    ensures { result ≡ surface.kind_declared (typed.declaration_of decls.now name.now) }
{
    match declaration(decls, name) {
        Some(decl) => Some(decl.kind),
        None => None,
    }
}

pub(crate) fn bytes_of_data(decls: &[Decl]) -> u32
    ensures { result ≡ typed.bytes_of_data decls.now }
{
    for decl in decls {
        if is_ring_kind(decl.kind) {
            return decl.bytes;
        }
    }
    8
}

#[cycle(varies)]
fn varies(stmt: &Stmt, name: &Name) -> bool
    ensures { result ≡ sharing.varies name.now (stmt_tree stmt.now) }
{
    match stmt {
        Stmt::Assign { .. } => false,
        Stmt::If { arms, other, .. } => {
            varies_in_arms(arms.as_slice(), name) || varies_in(other.as_slice(), name)
        }
        Stmt::Do { var, body, .. } => name.is(var) || varies_in(body.as_slice(), name),
    }
}

#[cycle(varies)]
fn varies_in(stmts: &[Stmt], name: &Name) -> bool
    ensures { result ≡ sharing.varies_in name.now (stmt_trees stmts.now) }
{
    for stmt in stmts {
        if varies(stmt, name) {
            return true;
        }
    }
    false
}

#[cycle(varies)]
fn varies_in_arms(arms: &[Arm], name: &Name) -> bool
    ensures { result ≡ sharing.varies_in_arms name.now (arm_trees arms.now) }
{
    for arm in arms {
        if varies_in(arm.body.as_slice(), name) {
            return true;
        }
    }
    false
}

fn is_variable(var: &Name, body: &[Stmt], name: &Name) -> bool
    ensures { result ≡ (bytes_eq name.now var.now || sharing.varies_in name.now (stmt_trees body.now)) }
{
    name.is(var) || varies_in(body, name)
}

/// The class of a name in a parallel loop.
fn class(var: &Name, directive: &Directive, body: &[Stmt], name: &Name) -> Sharing
    ensures { result ≡ sharing.sharing_in var.now directive.now (stmt_trees body.now) name.now }
{
    if is_variable(var, body, name) {
        return Sharing::LoopVar;
    }
    if has_name(name, directive.privates.as_slice()) {
        return Sharing::Private;
    }
    if has_name(name, directive.firsts.as_slice()) {
        return Sharing::First;
    }
    if has_name(name, directive.pluses.as_slice()) {
        return Sharing::Plus;
    }
    Sharing::Shared
}

fn class_by(
    number: u32,
    directive: &Option<Directive>,
    var: &Name,
    body: &[Stmt],
    wanted: u32,
    name: &Name,
) -> Option<Sharing>
    ensures { result ≡ surface.class_by wanted name.now number directive.now var.now (stmt_trees body.now) }
{
    match directive {
        None => None,
        Some(directive) => {
            if number == wanted {
                return Some(class(var, directive, body, name));
            }
            None
        }
    }
}

#[cycle(class)]
fn class_within(stmt: &Stmt, wanted: u32, name: &Name) -> Option<Sharing>
    ensures { result ≡ surface.class_within wanted name.now (stmt_tree stmt.now) }
{
    match stmt {
        Stmt::Assign { .. } => None,
        Stmt::If { arms, other, .. } => {
            let found = class_within_arms(arms.as_slice(), wanted, name);
            if found.is_some() {
                return found;
            }
            class_within_all(other.as_slice(), wanted, name)
        }
        Stmt::Do {
            number,
            directive,
            var,
            body,
            ..
        } => {
            let body = body.as_slice();
            let found = class_by(*number, directive, var, body, wanted, name);
            if found.is_some() {
                return found;
            }
            class_within_all(body, wanted, name)
        }
    }
}

#[cycle(class)]
pub(crate) fn class_within_all(stmts: &[Stmt], wanted: u32, name: &Name) -> Option<Sharing>
    ensures { result ≡ surface.class_within_all wanted name.now (stmt_trees stmts.now) }
{
    for stmt in stmts {
        let found = class_within(stmt, wanted, name);
        if found.is_some() {
            return found;
        }
    }
    None
}

#[cycle(class)]
fn class_within_arms(arms: &[Arm], wanted: u32, name: &Name) -> Option<Sharing>
    ensures { result ≡ surface.class_within_arms wanted name.now (arm_trees arms.now) }
{
    for arm in arms {
        let found = class_within_all(arm.body.as_slice(), wanted, name);
        if found.is_some() {
            return found;
        }
    }
    None
}
