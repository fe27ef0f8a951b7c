//! The clauses of a parallel loop in an adjoint.

ghost use Rattle.std.specs.Prelude.{◌≡◌, ◌++◌, ◌∷◌, ◌&&◌, [], if◌then◌else◌, IfOk, OnOk, flat_map};
ghost use Rattle.fl_ast.specs.Tree.{stmt_trees};
ghost use Rattle.adjoint_rules.specs.Clauses as rules;
ghost use Rattle.adjoint_rules.specs.OwnNames as own;
ghost use Rattle.adjoint_rules.specs.Scopes.{is_reduction as is_reduction_lem, has_choice};
ghost use Rattle.fl_types.specs.Sharing.{is_private as is_private_lem};
ghost use Rattle.reversal.specs.Places.{scope_of};
ghost use Rattle.loop_names.specs.Listed as spec;

use crate::numbers::push_bounds_in;
use crate::privates::{Listed, listed_names};
use fl_ast::{Directive, Name};
use fl_base::{Boxed, Items, Memory};
use fl_types::{Choice, Chosen, Sharing, iteration_body};
use reversal::{Region, Scope, adjoint_name, push_with_adjoint, sharing, varies_in};
use std::alloc::Global;

fn is_private(sharing: Sharing) -> bool
    ensures { result ≡ is_private_lem sharing }
{
    match sharing {
        Sharing::Private => true,
        Sharing::Shared | Sharing::First | Sharing::Plus | Sharing::LoopVar => false,
    }
}

/// Adds a private scalar with its adjoint, or the variable of a loop in an iteration.
fn push_private_names(
    alloc: Global,
    scope: &Scope<'_>,
    region: &Region<'_>,
    name: &Name,
    names: &mut Items<Name>,
) -> Result<(), Memory>
    ensures { OnOk result (names.new ≡ names.old
        ++ rules.private_names (scope_of scope.now) region.now.var.now region.now.directive.now (stmt_trees region.now.body.now) name.now) }
{
    if is_private(sharing(region.var, region.directive, region.body, name)) {
        return push_with_adjoint(alloc, scope.active, name, names);
    }
    if varies_in(name, iteration_body(region.directive, region.body)) {
        names.push(name.clone(alloc)?)?;
    }
    Ok(())
}

fn push_all_private_names(
    alloc: Global,
    scope: &Scope<'_>,
    region: &Region<'_>,
    names: &mut Items<Name>,
) -> Result<(), Memory>
    ensures { OnOk result (names.new ≡ names.old
        ++ flat_map (rules.private_names (scope_of scope.now) region.now.var.now region.now.directive.now (stmt_trees region.now.body.now)) (scope_of scope.now).declared) }
{
    for decl in scope.decls {
        push_private_names(alloc, scope, region, &decl.name, names)?;
    }
    Ok(())
}

/// Adds the adjoint's own scalars: an iteration's number, an arm's number, and the adjoint that is moved.
fn push_scratch_names(alloc: Global, names: &mut Items<Name>) -> Result<(), Memory>
    ensures { OnOk result (names.new ≡ names.old ++ rules.scratch_names) }
{
    names.push(Name::of(alloc, b"formad_k")?)?;
    names.push(Name::of(alloc, b"formad_w")?)?;
    names.push(Name::of(alloc, b"formad_t")?)?;
    Ok(())
}

/// What an iteration has of its own.
fn privates_of(alloc: Global, scope: &Scope<'_>, region: &Region<'_>) -> Result<Items<Name>, Memory>
    ensures { IfOk result (λ names. names ≡ rules.privates_of (scope_of scope.now) region.now.var.now region.now.directive.now (stmt_trees region.now.body.now)) }
{
    let mut names = Items::new(alloc);
    push_all_private_names(alloc, scope, region, &mut names)?;
    let iteration = iteration_body(region.directive, region.body);
    push_bounds_in(alloc, iteration, &mut names)?;
    push_scratch_names(alloc, &mut names)?;
    Ok(names)
}

/// The clauses with these reductions.
fn clauses_with(
    alloc: Global,
    pluses: Items<Name>,
    scope: &Scope<'_>,
    region: &Region<'_>,
) -> Result<Boxed<Directive>, Memory>
    ensures { IfOk result (λ d. d ≡ rules.clauses_with pluses (scope_of scope.now) region.now.var.now region.now.directive.now (stmt_trees region.now.body.now)) }
{
    let privates = privates_of(alloc, scope, region)?;
    let firsts = listed_names(alloc, scope, region, Listed::First)?;
    let clauses = Directive {
        line: region.directive.line,
        privates,
        firsts,
        shareds: Items::new(alloc),
        pluses,
        none: false,
        schedule: region.directive.schedule,
        collapse: region.directive.collapse,
    };
    Boxed::new(alloc, clauses)
}

/// The clauses of the forward loop, which has the program's reductions.
pub fn forward_clauses(
    alloc: Global,
    scope: &Scope<'_>,
    region: &Region<'_>,
) -> Result<Boxed<Directive>, Memory>
    ensures { IfOk result (λ d. d ≡ rules.forward_clauses (scope_of scope.now) region.now.var.now region.now.directive.now (stmt_trees region.now.body.now)) }
{
    let pluses = listed_names(alloc, scope, region, Listed::Plus)?;
    clauses_with(alloc, pluses, scope, region)
}

fn is_reduction(choice: Choice) -> bool
    ensures { result ≡ is_reduction_lem choice }
{
    match choice {
        Choice::Reduction => true,
        Choice::Shared | Choice::Atomic => false,
    }
}

fn has_reduction(choices: &[Chosen], number: u32, name: &Name) -> bool
    ensures { result ≡ has_choice is_reduction_lem choices.now number name.now }
{
    choices.iter().any(|chosen| chosen.loop_number == number
        && chosen.name.is(name)
        && is_reduction(chosen.choice))
}

/// Adds the adjoint of a name that is a reduction in the loop with a number.
fn push_reduction(
    alloc: Global,
    scope: &Scope<'_>,
    number: u32,
    name: &Name,
    names: &mut Items<Name>,
) -> Result<(), Memory>
    ensures { OnOk result (names.new ≡ names.old
        ++ (if (scope_of scope.now).active name.now && has_choice is_reduction_lem scope.now.choices.now number name.now then own.adjoint_name name.now ∷ [] else [])) }
{
    if scope.is_active(name) && has_reduction(scope.choices, number, name) {
        names.push(adjoint_name(alloc, name)?)?;
    }
    Ok(())
}

/// The adjoints that are reductions in the loop with a number.
fn reductions(alloc: Global, scope: &Scope<'_>, number: u32) -> Result<Items<Name>, Memory>
    ensures { IfOk result (λ names. names ≡ spec.reductions (scope_of scope.now) number) }
{
    let mut names = Items::new(alloc);
    for decl in scope.decls {
        push_reduction(alloc, scope, number, &decl.name, &mut names)?;
    }
    Ok(names)
}

/// The clauses of the reverse's loop, in which adjoints are reductions.
pub fn backward_clauses(
    alloc: Global,
    scope: &Scope<'_>,
    region: &Region<'_>,
) -> Result<Boxed<Directive>, Memory>
    ensures { IfOk result (λ d. d ≡ rules.backward_clauses (scope_of scope.now) region.now.number region.now.var.now region.now.directive.now (stmt_trees region.now.body.now)) }
{
    let pluses = reductions(alloc, scope, region.number)?;
    clauses_with(alloc, pluses, scope, region)
}
