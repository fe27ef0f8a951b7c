//! The choices in each parallel loop, slot by slot.

ghost use Rattle.std.specs.Prelude.{◌≡◌, ◌<◌, ◌&&◌, nat_eq, ℕ, length, IfOk, slice_get};
ghost use Rattle.fl_types.specs.Sharing.{has_name as has_name_lem};
ghost use Rattle.adjoint_rules.specs.Scopes.{is_reduction as is_reduction_lem};
ghost use Rattle.loop_choices.specs.Choosing.{is_shared as is_shared_lem, choice_by as choice_by_lem, choice_in};
ghost use Rattle.resolved.specs.ResolvedExprs.{slot_name};
ghost use Rattle.made_growths.specs.Told.{in_row};
ghost use Rattle.reverse_opening.specs.Chosen.{names_in, row_in, count_in};

use fl_ast::Name;
use fl_base::{Items, Memory};
use fl_types::{Choice, Chosen};
use std::alloc::Global;
use store_core::Shape;

fn is_reduction(choice: Choice) -> bool
    ensures { result ≡ is_reduction_lem choice }
{
    match choice {
        Choice::Reduction => true,
        Choice::Atomic | Choice::Shared => false,
    }
}

fn is_shared(choice: Choice) -> bool
    ensures { result ≡ is_shared_lem choice }
{
    match choice {
        Choice::Shared => true,
        Choice::Reduction | Choice::Atomic => false,
    }
}

fn has_name(names: &[Name], name: &Name) -> bool
    ensures { result ≡ has_name_lem name.now names.now }
{
    names.iter().any(|other| name.is(other))
}

fn is_collected(entry: &Chosen, number: usize) -> bool
    ensures { result ≡ (nat_eq entry.now.loop_number number && is_reduction_lem entry.now.choice) }
{
    entry.loop_number as usize == number && is_reduction(entry.choice)
}

fn is_left_shared(entry: &Chosen, number: usize) -> bool
    ensures { result ≡ (nat_eq entry.now.loop_number number && is_shared_lem entry.now.choice) }
{
    entry.loop_number as usize == number && is_shared(entry.choice)
}

/// The names whose adjoints are collected in the loop with a number.
fn collected(alloc: Global, entries: &[Chosen], number: usize) -> Result<Items<Name>, Memory>
    ensures { IfOk result (λ names. names ≡ names_in is_reduction_lem entries.now number) }
{
    let mut names = Items::new(alloc);
    for entry in entries {
        if is_collected(entry, number) {
            names.push(entry.name.clone(alloc)?)?;
        }
    }
    Ok(names)
}

/// The names whose adjoints are incremented as those of shared names there.
fn shared(alloc: Global, entries: &[Chosen], number: usize) -> Result<Items<Name>, Memory>
    ensures { IfOk result (λ names. names ≡ names_in is_shared_lem entries.now number) }
{
    let mut names = Items::new(alloc);
    for entry in entries {
        if is_left_shared(entry, number) {
            names.push(entry.name.clone(alloc)?)?;
        }
    }
    Ok(names)
}

fn choice_by(collected: bool, shared: bool) -> Choice
    ensures { result ≡ choice_by_lem collected shared }
{
    if collected {
        Choice::Reduction
    } else if shared {
        Choice::Shared
    } else {
        Choice::Atomic
    }
}

fn row_of(
    alloc: Global,
    shapes: &[Shape],
    collected: &[Name],
    shared: &[Name],
) -> Result<Items<Choice>, Memory>
    ensures { IfOk result (λ row. row ≡ row_in shapes.now collected.now shared.now) }
{
    let mut row = Items::new(alloc);
    for shape in shapes {
        let is_collected = has_name(collected, &shape.name);
        let is_shared = has_name(shared, &shape.name);
        row.push(choice_by(is_collected, is_shared))?;
    }
    Ok(row)
}

/// The choices in the loop with a number.
fn row_for(
    alloc: Global,
    shapes: &[Shape],
    entries: &[Chosen],
    number: usize,
) -> Result<Items<Choice>, Memory>
    ensures { IfOk result (λ row. row ≡ row_in shapes.now (names_in is_reduction_lem entries.now number) (names_in is_shared_lem entries.now number)) }
{
    let collected = collected(alloc, entries, number)?;
    let shared = shared(alloc, entries, number)?;
    row_of(alloc, shapes, collected.as_slice(), shared.as_slice())
}

/// More than the number of any loop for which there is a choice.
fn count_of(entries: &[Chosen]) -> usize
    ensures { result ≡ count_in entries.now }
{
    let mut count = 0usize;
    for entry in entries {
        count = count.max(entry.loop_number as usize + 1);
    }
    count
}

/// The choices in each parallel loop, slot by slot.
pub(crate) fn rows_of(
    alloc: Global,
    shapes: &[Shape],
    entries: &[Chosen],
) -> Result<Items<Items<Choice>>, Memory>
    ensures { IfOk result (λ rows. (number slot : ℕ) → slot < length shapes.now
        → choice_in entries.now number (slot_name shapes.now slot) ≡ in_row (slice_get rows number) slot) }
{
    let mut rows = Items::new(alloc);
    for number in 0..count_of(entries) {
        rows.push(row_for(alloc, shapes, entries, number)?)?;
    }
    Ok(rows)
}
