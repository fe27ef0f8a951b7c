//! The choices of a program.

ghost use Rattle.std.specs.Prelude.{◌≡◌, ◌++◌, ◌&&◌, not, ◌∷◌, [], if◌then◌else◌, IfOk, OnOk, flat_map};
ghost use Rattle.fl_ast.specs.Tree.{stmt_tree, stmt_trees, arm_trees};
ghost use Rattle.fl_types.specs.Sharing.{has_name as has_name_lem, is_ring_name, sharing_in, assigns_in as assigns_in_lem};
ghost use Rattle.fl_types.specs.Declarations.{is_scalar as is_scalar_lem};
ghost use Rattle.adjoint_choices.specs.Choosing as rules;
ghost use Rattle.adjoint_choices.specs.Walked as spec;
ghost use Rattle.adjoint_choices.specs.Settings as settings;

use crate::assigned::assigns_in;
use crate::carried::is_carried_in;
use crate::order::active_names;
use fl_ast::{Arm, Decl, Directive, Name, Program, Stmt};
use fl_base::{Items, Memory};
use fl_types::{Choice, Choices, Chosen, NameSet, Sharing};
use reversal::{has_name, is_ring, sharing};
use std::alloc::Global;

/// A program's declarations and active names, these in the order of their bytes too.
#[derive(Drop)]
pub struct Names<'a> {
    pub decls: &'a [Decl],
    pub active: &'a NameSet,
    pub in_order: &'a [Name],
}

impl<'a> Names<'a> {
    pub fn is_active(&self, name: &Name) -> bool
        ensures { result ≡ has_name_lem name.now self.now.active.now.names }
    {
        has_name(name, self.active.names.as_slice())
    }

    pub fn is_ring(&self, name: &Name) -> bool
        ensures { result ≡ is_ring_name self.now.decls.now name.now }
    {
        is_ring(self.decls, name)
    }
}

fn is_scalar(decl: &Decl) -> bool
    ensures { result ≡ is_scalar_lem decl.now.dims }
{
    match decl.dims.as_slice() {
        [] => true,
        _ => false,
    }
}

fn is_scalar_name(decls: &[Decl], name: &Name) -> bool
    ensures { result ≡ rules.is_scalar_name decls.now name.now }
{
    decls
        .iter()
        .any(|decl| name.is(&decl.name) && is_scalar(decl))
}

fn has_a_choice(sharing: Sharing) -> bool
    ensures { result ≡ rules.has_a_choice sharing }
{
    match sharing {
        Sharing::Shared | Sharing::First => true,
        Sharing::Private | Sharing::Plus | Sharing::LoopVar => false,
    }
}

fn choice_of(decls: &[Decl], body: &[Stmt], name: &Name) -> Choice
    ensures { result ≡ rules.choice_of (rules.is_scalar_name decls.now name.now && not (assigns_in_lem name.now (stmt_trees body.now))) }
{
    if !is_scalar_name(decls, name) {
        return Choice::Atomic;
    }
    if assigns_in(name, body) {
        Choice::Atomic
    } else {
        Choice::Reduction
    }
}

/// A parallel loop.
#[derive(Clone, Copy, Drop)]
struct Loop<'a> {
    number: u32,
    directive: &'a Directive,
    var: &'a Name,
    body: &'a [Stmt],
}

fn has_choice_in(names: &Names<'_>, region: &Loop<'_>, name: &Name) -> bool
    ensures { result ≡ (rules.has_a_choice (sharing_in region.now.var.now region.now.directive.now (stmt_trees region.now.body.now) name.now)
        && spec.carried_in (settings.kinds_of_names names.now) name.now (stmt_trees region.now.body.now)) }
{
    if !has_a_choice(sharing(region.var, region.directive, region.body, name)) {
        return false;
    }
    is_carried_in(names, name, region.body)
}

fn chosen_for(
    alloc: Global,
    decls: &[Decl],
    region: &Loop<'_>,
    name: &Name,
) -> Result<Chosen, Memory>
    ensures { IfOk result (λ c. c ≡ rules.chosen_for decls.now region.now.number (stmt_trees region.now.body.now) name.now) }
{
    let choice = choice_of(decls, region.body, name);
    Ok(Chosen {
        loop_number: region.number,
        name: name.clone(alloc)?,
        choice,
    })
}

/// Adds the choice of a name in a loop, where it has one.
fn push_choice(
    alloc: Global,
    names: &Names<'_>,
    region: &Loop<'_>,
    name: &Name,
    entries: &mut Items<Chosen>,
) -> Result<(), Memory>
    ensures { OnOk result (entries.new ≡ entries.old
        ++ spec.choices_at (settings.setting_of names.now) region.now.number region.now.var.now region.now.directive.now (stmt_trees region.now.body.now) name.now) }
{
    if has_choice_in(names, region, name) {
        entries.push(chosen_for(alloc, names.decls, region, name)?)?;
    }
    Ok(())
}

/// Adds the choices in a loop.
fn push_loop_choices(
    alloc: Global,
    names: &Names<'_>,
    region: &Loop<'_>,
    entries: &mut Items<Chosen>,
) -> Result<(), Memory>
    ensures { OnOk result (entries.new ≡ entries.old
        ++ flat_map (spec.choices_at (settings.setting_of names.now) region.now.number region.now.var.now region.now.directive.now (stmt_trees region.now.body.now)) names.now.in_order.now) }
{
    for name in names.in_order {
        push_choice(alloc, names, region, name, entries)?;
    }
    Ok(())
}

/// Adds the choices in a parallel loop with these parts.
fn push_choices_of(
    alloc: Global,
    names: &Names<'_>,
    number: u32,
    var: &Name,
    directive: &Directive,
    body: &[Stmt],
    entries: &mut Items<Chosen>,
) -> Result<(), Memory>
    ensures { OnOk result (entries.new ≡ entries.old
        ++ flat_map (spec.choices_at (settings.setting_of names.now) number var.now directive.now (stmt_trees body.now)) names.now.in_order.now) }
{
    let region = Loop {
        number,
        directive,
        var,
        body,
    };
    push_loop_choices(alloc, names, &region, entries)
}

#[cycle(choices)]
fn push_choices(
    alloc: Global,
    names: &Names<'_>,
    stmt: &Stmt,
    entries: &mut Items<Chosen>,
) -> Result<(), Memory>
    ensures { OnOk result (entries.new ≡ entries.old ++ spec.choices_in (settings.setting_of names.now) (stmt_tree stmt.now)) }
{
    match stmt {
        Stmt::Assign { .. } => Ok(()),
        Stmt::If { arms, other, .. } => {
            push_choices_in_arms(alloc, names, arms.as_slice(), entries)?;
            push_choices_in(alloc, names, other.as_slice(), entries)?;
            Ok(())
        }
        Stmt::Do {
            number,
            directive,
            var,
            body,
            ..
        } => match directive {
            None => push_choices_in(alloc, names, body.as_slice(), entries),
            Some(directive) => {
                push_choices_of(
                    alloc,
                    names,
                    *number,
                    var,
                    directive,
                    body.as_slice(),
                    entries,
                )?;
                push_choices_in(alloc, names, body.as_slice(), entries)?;
                Ok(())
            }
        },
    }
}

/// Adds the choices in the parallel loops of these statements.
#[cycle(choices)]
fn push_choices_in(
    alloc: Global,
    names: &Names<'_>,
    stmts: &[Stmt],
    entries: &mut Items<Chosen>,
) -> Result<(), Memory>
    ensures { OnOk result (entries.new ≡ entries.old ++ spec.choices_in_all (settings.setting_of names.now) (stmt_trees stmts.now)) }
{
    for stmt in stmts {
        push_choices(alloc, names, stmt, entries)?;
    }
    Ok(())
}

#[cycle(choices)]
fn push_choices_in_arms(
    alloc: Global,
    names: &Names<'_>,
    arms: &[Arm],
    entries: &mut Items<Chosen>,
) -> Result<(), Memory>
    ensures { OnOk result (entries.new ≡ entries.old ++ spec.choices_in_arms (settings.setting_of names.now) (arm_trees arms.now)) }
{
    for arm in arms {
        push_choices_in(alloc, names, arm.body.as_slice(), entries)?;
    }
    Ok(())
}

/// The choices for a program's active names, where nothing is known of which iterations meet. It fails only where memory is
/// wanting.
pub fn unproved_choices(
    alloc: Global,
    program: &Program,
    active: &NameSet,
) -> Result<Choices, Memory>
    ensures { IfOk result (λ choices. choices.entries ≡ rules.choices_of program.now (λ x. has_name_lem x active.now.names)) }
{
    let in_order = active_names(alloc, program.decls.as_slice(), active)?;
    let names = Names {
        decls: program.decls.as_slice(),
        active,
        in_order: &in_order,
    };
    let mut entries = Items::new(alloc);
    push_choices_in(alloc, &names, program.body.as_slice(), &mut entries)?;
    Ok(Choices { entries })
}
