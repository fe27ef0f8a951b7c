ghost use Rattle.std.specs.Prelude.{◌≡◌, ◌<◌, ◌&&◌, ◌++◌, [], length, IfOk, OnOk};
ghost use Rattle.fl_types.specs.Sharing.{has_name};
ghost use Rattle.store_core.specs.Keys.{place_in_slot};
ghost use Rattle.sweep_trees.specs.Standing.{is_accessed_at};
ghost use Rattle.loop_scopes.specs.Loops.{private_of, privates_of};

use crate::loops::LoopNames;
use fl_ast::{Memory, Name};
use fl_base::Items;
use resolved::SlotTable;
use split_trees::is_marked;
use std::alloc::Global;
use sweep_steps::PrivateScalar;

fn private_scalar(
    table: &SlotTable,
    pushed: &[bool],
    names: &LoopNames<'_>,
    name: &Name,
    slot: usize,
) -> PrivateScalar
    requires { slot < length table.now.0 }
    ensures { result ≡ record { slot = slot; place = place_in_slot table.now.0 slot []; pushes = has_name name.now names.now.assigned && is_accessed_at pushed.now slot } }
{
    PrivateScalar {
        slot,
        place: table.layout().place_in(slot, &[]),
        pushes: names.is_assigned(name) && is_marked(pushed, slot),
    }
}

/// Adds the scalar of a name that is private.
fn push_private(
    table: &SlotTable,
    pushed: &[bool],
    names: &LoopNames<'_>,
    name: &Name,
    privates: &mut Items<PrivateScalar>,
) -> Result<(), Memory>
    ensures { OnOk result (privates.new ≡ privates.old ++ private_of table.now pushed.now names.now name.now) }
{
    if !names.is_private(name) {
        return Ok(());
    }
    if let Some(slot) = table.layout().slot(name) {
        privates.push(private_scalar(table, pushed, names, name, slot))?;
    }
    Ok(())
}

/// The private scalars of a parallel loop, in the order of their declarations. Each declared name has a slot.
pub fn private_scalars(
    alloc: Global,
    table: &SlotTable,
    pushed: &[bool],
    names: &LoopNames<'_>,
) -> Result<Items<PrivateScalar>, Memory>
    ensures { IfOk result (λ privates. privates ≡ privates_of table.now pushed.now names.now table.now.3) }
{
    let mut privates = Items::new(alloc);
    for name in table.declared() {
        push_private(table, pushed, names, name, &mut privates)?;
    }
    Ok(privates)
}
