//! The private scalars of a parallel loop.

ghost use Rattle.std.specs.Prelude.{◌≡◌, ◌++◌, ◌∷◌, ◌&&◌, [], if◌then◌else◌, IfOk, OnOk, filter};
ghost use Rattle.fl_ast.specs.Tree.{stmt_trees};
ghost use Rattle.fl_types.specs.Sharing.{sharing_in, assigns_in as assigns_in_lem};
ghost use Rattle.adjoint_rules.specs.Forward as rules;
ghost use Rattle.reversal.specs.Places.{scope_of};
ghost use Rattle.loop_names.specs.Listed as spec;

use crate::assigned::assigns_in;
use fl_ast::Name;
use fl_base::{Items, Memory};
use fl_types::Sharing;
use reversal::{Region, Scope, sharing};
use std::alloc::Global;

/// A class of names that a clause lists.
#[derive(Clone, Copy, Drop)]
pub enum Listed {
    Private,
    First,
    Plus,
}

impl Listed {
    fn is_of(self, sharing: Sharing) -> bool
        ensures { result ≡ spec.is_listed self sharing }
    {
        match (self, sharing) {
            (Listed::Private, Sharing::Private)
            | (Listed::First, Sharing::First)
            | (Listed::Plus, Sharing::Plus) => true,
            _ => false,
        }
    }
}

/// Adds a name, where it is of a class.
fn push_listed(
    alloc: Global,
    region: &Region<'_>,
    listed: Listed,
    name: &Name,
    names: &mut Items<Name>,
) -> Result<(), Memory>
    ensures { OnOk result (names.new ≡ names.old
        ++ (if spec.is_listed listed (sharing_in region.now.var.now region.now.directive.now (stmt_trees region.now.body.now) name.now) then name.now ∷ [] else [])) }
{
    if listed.is_of(sharing(region.var, region.directive, region.body, name)) {
        names.push(name.clone(alloc)?)?;
    }
    Ok(())
}

/// The names of a class in a parallel loop, in the order of their declarations.
pub fn listed_names(
    alloc: Global,
    scope: &Scope<'_>,
    region: &Region<'_>,
    listed: Listed,
) -> Result<Items<Name>, Memory>
    ensures { IfOk result (λ names. names ≡ spec.listed_names (scope_of scope.now) region.now.var.now region.now.directive.now (stmt_trees region.now.body.now) listed) }
{
    let mut names = Items::new(alloc);
    for decl in scope.decls {
        push_listed(alloc, region, listed, &decl.name, &mut names)?;
    }
    Ok(names)
}

/// The private scalars of a parallel loop.
pub fn private_scalars(
    alloc: Global,
    scope: &Scope<'_>,
    region: &Region<'_>,
) -> Result<Items<Name>, Memory>
    ensures { IfOk result (λ names. names ≡ rules.private_scalars (scope_of scope.now) region.now.var.now region.now.directive.now (stmt_trees region.now.body.now)) }
{
    Ok(listed_names(alloc, scope, region, Listed::Private)?)
}

fn push_where_pushed(
    alloc: Global,
    scope: &Scope<'_>,
    region: &Region<'_>,
    name: &Name,
    names: &mut Items<Name>,
) -> Result<(), Memory>
    ensures { OnOk result (names.new ≡ names.old
        ++ (if assigns_in_lem name.now (stmt_trees region.now.body.now) && (scope_of scope.now).needed name.now then name.now ∷ [] else [])) }
{
    if assigns_in(name, region.body) && scope.is_needed(name) {
        names.push(name.clone(alloc)?)?;
    }
    Ok(())
}

/// Those of the names whose values at an iteration's end the reverse part asks for.
fn pushed_of(
    alloc: Global,
    scope: &Scope<'_>,
    region: &Region<'_>,
    privates: &[Name],
) -> Result<Items<Name>, Memory>
    ensures { IfOk result (λ names. names ≡ filter (λ x. assigns_in_lem x (stmt_trees region.now.body.now) && (scope_of scope.now).needed x) privates.now) }
{
    let mut names = Items::new(alloc);
    for name in privates {
        push_where_pushed(alloc, scope, region, name, &mut names)?;
    }
    Ok(names)
}

/// The private scalars whose values at an iteration's end the reverse part asks for.
pub fn pushed_scalars(
    alloc: Global,
    scope: &Scope<'_>,
    region: &Region<'_>,
) -> Result<Items<Name>, Memory>
    ensures { IfOk result (λ names. names ≡ rules.pushed_scalars (scope_of scope.now) region.now.var.now region.now.directive.now (stmt_trees region.now.body.now)) }
{
    let privates = private_scalars(alloc, scope, region)?;
    Ok(pushed_of(alloc, scope, region, privates.as_slice())?)
}
