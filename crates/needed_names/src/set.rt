//! The needed names of a program.

ghost use Rattle.std.specs.Prelude.{◌≡◌, IfOk};
ghost use Rattle.fl_types.specs.Sharing.{has_name as has_name_lem};
ghost use Rattle.fl_ast.specs.Tree.{stmt_trees};
ghost use Rattle.reachability.specs.Named.{indexes_of, links_of};
ghost use Rattle.adjoint_rules.specs.Needed as rules;
ghost use Rattle.needed_names.specs.Terms as spec;

use crate::walk::{push_links_in, push_roots_in};
use fl_ast::{Name, Program};
use fl_base::{Items, Memory};
use fl_types::NameSet;
use reachability::{Link, reached_names};
use std::alloc::Global;

fn roots(alloc: Global, program: &Program, active: &NameSet) -> Result<Items<usize>, Memory>
    ensures { IfOk result (λ roots. roots ≡ indexes_of program.now.decls (rules.read_by_all (spec.kinds_in program.now.decls active.now.names) (stmt_trees program.now.body))) }
{
    let mut roots = Items::new(alloc);
    push_roots_in(
        alloc,
        program.decls.as_slice(),
        active,
        program.body.as_slice(),
        &mut roots,
    )?;
    Ok(roots)
}

fn links(alloc: Global, program: &Program, active: &NameSet) -> Result<Items<Link>, Memory>
    ensures { IfOk result (λ links. links ≡ links_of program.now.decls (rules.restorings_in (spec.kinds_in program.now.decls active.now.names) (stmt_trees program.now.body))) }
{
    let mut links = Items::new(alloc);
    push_links_in(
        alloc,
        program.decls.as_slice(),
        active,
        program.body.as_slice(),
        &mut links,
    )?;
    Ok(links)
}

fn names(alloc: Global, program: &Program, active: &NameSet) -> Result<Items<Name>, Memory>
    ensures { IfOk result (λ names. rules.AreNeeded program.now (λ x. has_name_lem x active.now.names) (λ x. has_name_lem x names)) }
{
    let roots = roots(alloc, program, active)?;
    let links = links(alloc, program, active)?;
    let decls = program.decls.as_slice();
    reached_names(alloc, decls, roots.as_slice(), links.as_slice())
}

/// The needed names of a program for its active names, in the order of their declarations.
pub fn needed(alloc: Global, program: &Program, active: &NameSet) -> Result<NameSet, Memory>
    ensures { IfOk result (λ set. rules.AreNeeded program.now (λ x. has_name_lem x active.now.names) (λ x. has_name_lem x set.names)) }
{
    let names = names(alloc, program, active)?;
    Ok(NameSet { names })
}
