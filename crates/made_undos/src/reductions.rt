//! The places of Reductions.

ghost use Rattle.std.specs.Prelude.{◌≡◌, ◌<◌, ◌++◌, length, nat_lt, OnOk, IfOk};
ghost use Rattle.store_core.specs.Keys.{slot_of};
ghost use Rattle.transposition.specs.Worlds.{is_reduction as is_reduction_lem};
ghost use Rattle.made_growths.specs.Told.{told};
ghost use Rattle.made_undos.specs.Reductions.{is_reduced_in as is_reduced_in_lem, reduced_place as reduced_place_lem, reduction_by, reductions_by};

use fl_ast::{Memory, Name};
use fl_base::Items;
use fl_types::Choice;
use made_growths::{UndoNames, choice_in, is_active};
use resolved::SlotTable;
use std::alloc::Global;

fn is_reduction(choice: Choice) -> bool
    ensures { result ≡ is_reduction_lem choice }
{
    match choice {
        Choice::Reduction => true,
        Choice::Shared | Choice::Atomic => false,
    }
}

fn is_reduced_in(names: &UndoNames<'_>, number: u32, slot: usize) -> bool
    ensures { result ≡ is_reduced_in_lem (told names.now) number slot }
{
    is_active(names, slot) && is_reduction(choice_in(names, number, slot))
}

fn reduced_place(table: &SlotTable, names: &UndoNames<'_>, number: u32, slot: usize) -> Option<u32>
    requires { slot < length table.now.0 }
    ensures { result ≡ reduced_place_lem table.now (told names.now) number slot }
{
    if !is_reduced_in(names, number, slot) {
        return None;
    }
    match table.layout().place_in(slot, &[]) {
        Some(place) => {
            if place < names.shared {
                Some(place)
            } else {
                None
            }
        }
        None => None,
    }
}

/// Adds the place of a name that is a Reduction.
fn push_reduction(
    table: &SlotTable,
    names: &UndoNames<'_>,
    number: u32,
    name: &Name,
    reductions: &mut Items<u32>,
) -> Result<(), Memory>
    ensures { OnOk result (reductions.new ≡ reductions.old ++ reduction_by table.now (told names.now) number (slot_of table.now.0 name.now)) }
{
    if let Some(slot) = table.layout().slot(name) {
        if let Some(place) = reduced_place(table, names, number, slot) {
            reductions.push(place)?;
        }
    }
    Ok(())
}

/// The places of the Reductions of the parallel loop with a number, in the order of their declarations.
pub(crate) fn reductions_of(
    alloc: Global,
    table: &SlotTable,
    names: &UndoNames<'_>,
    number: u32,
) -> Result<Items<u32>, Memory>
    ensures { IfOk result (λ places. places ≡ reductions_by table.now (told names.now) number table.now.3) }
{
    let mut reductions = Items::new(alloc);
    for name in table.declared() {
        push_reduction(table, names, number, name, &mut reductions)?;
    }
    Ok(reductions)
}
