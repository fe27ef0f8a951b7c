ghost use Rattle.std.specs.Prelude.{◌≡◌, ◌↔◌, ℕ, List, true, map, filter, length, None, IfOk, IfErr};
ghost use Rattle.activity.specs.declared.set.ActivityError.TheVariants.{NotRing, Memory as memory};
ghost use Rattle.fl_types.specs.Sharing.{has_name as has_name_lem};
ghost use Rattle.reachability.specs.Named.{links_of};
ghost use Rattle.activity.specs.Order.{are_ordered};
ghost use Rattle.activity.specs.Active.{AreActive, IsCause, misfit_among, first_misfit, program_flows, turned_link};

use crate::flow::push_flows_in;
use crate::order::ordered;
use fl_ast::{Name, Program};
use fl_base::{Items, Memory};
use fl_types::{NameSet, Typed};
use reachability::{Link, reached_from};
use std::alloc::Global;
use thiserror::Error;

/// Why there are no active names.
#[derive(Debug, Drop, Error)]
pub enum ActivityError {
    /// The name isn't an argument of the ring kind.
    #[error("not data")]
    NotRing { name: Name },
    #[error("no memory")]
    Memory,
}

impl From<Memory> for ActivityError {
    ghost from_gives = { λ _ e. e ≡ memory };

    fn from(_: Memory) -> ActivityError {
        ActivityError::Memory
    }
}

fn not_ring(alloc: Global, name: &Name) -> Result<ActivityError, Memory>
    ensures { IfOk result (λ e. e ≡ NotRing name.now) }
{
    let name = name.clone(alloc)?;
    Ok(ActivityError::NotRing { name })
}

/// Whether all names are arguments of the ring kind.
fn check_names(alloc: Global, typed: &Typed, names: &[Name]) -> Result<(), ActivityError>
    ensures ok { IfOk result (λ _. misfit_among typed.now names.now ≡ None) }
    ensures err { IfErr result (λ e. IsCause (misfit_among typed.now names.now) e) }
{
    for name in names {
        if !typed.is_ring_argument(name) {
            return Err(not_ring(alloc, name)?);
        }
    }
    Ok(())
}

fn links(alloc: Global, program: &Program) -> Result<Items<Link>, Memory>
    ensures { IfOk result (λ links. links ≡ links_of program.now.decls (program_flows program.now)) }
{
    let mut links = Items::new(alloc);
    push_flows_in(
        program.decls.as_slice(),
        program.body.as_slice(),
        &mut links,
    )?;
    Ok(links)
}

/// Each edge the other way.
fn turned(alloc: Global, links: &[Link]) -> Result<Items<Link>, Memory>
    ensures { IfOk result (λ all. all ≡ map turned_link links.now) }
{
    let mut all = Items::new(alloc);
    for link in links {
        all.push(Link {
            tail: link.head,
            head: link.tail,
        })?;
    }
    Ok(all)
}

fn has_name(name: &Name, names: &[Name]) -> bool
    ensures { result ≡ has_name_lem name.now names.now }
{
    names.iter().any(|other| name.is(other))
}

/// The names that stand in both lists.
fn in_both(alloc: Global, names: &[Name], others: &[Name]) -> Result<Items<Name>, Memory>
    ensures { IfOk result (λ both. both ≡ filter (λ x. has_name_lem x others.now) names.now) }
{
    let mut both = Items::new(alloc);
    for name in names {
        if has_name(name, others) {
            both.push(name.clone(alloc)?)?;
        }
    }
    Ok(both)
}

/// The names that data flows to from `wrt`, and from which it flows to `of`.
fn names_between(
    alloc: Global,
    program: &Program,
    of: &[Name],
    wrt: &[Name],
) -> Result<Items<Name>, Memory>
    ensures { IfOk result (λ names. AreActive program.now of.now wrt.now names) }
{
    let decls = program.decls.as_slice();
    let onward = links(alloc, program)?;
    let reached = reached_from(alloc, decls, wrt, onward.as_slice())?;
    let back = turned(alloc, onward.as_slice())?;
    let reaching = reached_from(alloc, decls, of, back.as_slice())?;
    in_both(alloc, reached.as_slice(), reaching.as_slice())
}

/// The active names of a program: those whose adjoints have to be computed for the results `of` and the arguments `wrt`.
pub fn active(
    alloc: Global,
    typed: &Typed,
    of: &[Name],
    wrt: &[Name],
) -> Result<NameSet, ActivityError>
    ensures active { IfOk result (λ set. AreActive typed.now of.now wrt.now set.names) }
    ensures ordered { IfOk result (λ set. are_ordered set.names ≡ true) }
    ensures fits { IfOk result (λ _. first_misfit typed.now of.now wrt.now ≡ None) }
    ensures refused { IfErr result (λ e. IsCause (first_misfit typed.now of.now wrt.now) e) }
{
    check_names(alloc, typed, of)?;
    check_names(alloc, typed, wrt)?;
    let between = names_between(alloc, typed.program(), of, wrt)?;
    let names = ordered(alloc, between)?;
    Ok(NameSet { names })
}
