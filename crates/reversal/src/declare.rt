//! The arguments and declarations of an adjoint.

ghost use Rattle.std.specs.Prelude.{◌≡◌, ◌++◌, ◌∷◌, [], flat_map, IfOk, OnOk};
ghost use Rattle.fl_types.specs.Sharing.{has_name as has_name_lem};
ghost use Rattle.adjoint_rules.specs.Clauses.{with_adjoint};
ghost use Rattle.adjoint_rules.specs.Declarations as spec;

use crate::name::{adjoint_name, has_name};
use fl_ast::{Decl, Intent, Name};
use fl_base::{Items, Memory};
use fl_types::NameSet;
use std::alloc::Global;

/// Each active name followed by its adjoint.
pub fn arguments(alloc: Global, active: &NameSet, args: &[Name]) -> Result<Items<Name>, Memory>
    ensures { IfOk result (λ names. names ≡ spec.arguments (λ x. has_name_lem x active.now.names) args.now) }
{
    let mut names = Items::new(alloc);
    for arg in args {
        push_with_adjoint(alloc, active, arg, &mut names)?;
    }
    Ok(names)
}

/// Adds a name, and its adjoint where it is active.
pub fn push_with_adjoint(
    alloc: Global,
    active: &NameSet,
    arg: &Name,
    names: &mut Items<Name>,
) -> Result<(), Memory>
    ensures { OnOk result (names.new ≡ names.old ++ with_adjoint (λ x. has_name_lem x active.now.names) arg.now) }
{
    names.push(arg.clone(alloc)?)?;
    if has_name(arg, active.names.as_slice()) {
        names.push(adjoint_name(alloc, arg)?)?;
    }
    Ok(())
}

fn without_intent(alloc: Global, decl: &Decl) -> Result<Decl, Memory>
    ensures { IfOk result (λ d. d ≡ spec.without_intent decl.now) }
{
    let mut copy = decl.clone(alloc)?;
    copy.intent = Intent::Unsaid;
    Ok(copy)
}

fn adjoint_decl(alloc: Global, decl: &Decl) -> Result<Decl, Memory>
    ensures { IfOk result (λ d. d ≡ spec.adjoint_decl decl.now) }
{
    let mut copy = without_intent(alloc, decl)?;
    copy.name = adjoint_name(alloc, &decl.name)?;
    Ok(copy)
}

fn push_declared(
    alloc: Global,
    active: &NameSet,
    decl: &Decl,
    decls: &mut Items<Decl>,
) -> Result<(), Memory>
    ensures { OnOk result (decls.new ≡ decls.old ++ spec.declared_with_adjoint (λ x. has_name_lem x active.now.names) decl.now) }
{
    decls.push(without_intent(alloc, decl)?)?;
    if has_name(&decl.name, active.names.as_slice()) {
        decls.push(adjoint_decl(alloc, decl)?)?;
    }
    Ok(())
}

/// The program's declarations without intents, each active name followed by its adjoint.
pub fn declared(alloc: Global, active: &NameSet, decls: &[Decl]) -> Result<Items<Decl>, Memory>
    ensures { IfOk result (λ ds. ds ≡ flat_map (spec.declared_with_adjoint (λ x. has_name_lem x active.now.names)) decls.now) }
{
    let mut all = Items::new(alloc);
    for decl in decls {
        push_declared(alloc, active, decl, &mut all)?;
    }
    Ok(all)
}
