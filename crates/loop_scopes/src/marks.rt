ghost use Rattle.std.specs.Prelude.{◌≡◌, false, map, IfOk};
ghost use Rattle.fl_types.specs.Sharing.{is_plus};
ghost use Rattle.store_core.specs.declared.layout.Shape.{Shape as LaidShape};
ghost use Rattle.loop_scopes.specs.Loops.{class_by, accessed_by};

use crate::loops::LoopNames;
use fl_base::{Items, Memory};
use resolved::SlotTable;
use std::alloc::Global;
use store_core::Shape;

/// Marks by slot: which names make accesses, and which of these are reductions.
#[derive(Drop)]
pub struct Marks {
    pub accessed: Items<bool>,
    pub reduced: Items<bool>,
}

fn accessed_marks(
    alloc: Global,
    table: &SlotTable,
    names: &LoopNames<'_>,
) -> Result<Items<bool>, Memory>
    ensures { IfOk result (λ marks. marks ≡ map (λ (s : LaidShape). accessed_by names.now s.name) table.now.0) }
{
    let mut marks = Items::new(alloc);
    for shape in table.layout().shapes() {
        marks.push(names.makes_accesses(&shape.name))?;
    }
    Ok(marks)
}

fn reduced_marks(
    alloc: Global,
    table: &SlotTable,
    names: &LoopNames<'_>,
) -> Result<Items<bool>, Memory>
    ensures { IfOk result (λ marks. marks ≡ map (λ (s : LaidShape). is_plus (class_by names.now s.name)) table.now.0) }
{
    let mut marks = Items::new(alloc);
    for shape in table.layout().shapes() {
        marks.push(names.is_reduced(&shape.name))?;
    }
    Ok(marks)
}

fn no_marks(alloc: Global, shapes: &[Shape]) -> Result<Items<bool>, Memory>
    ensures { IfOk result (λ marks. marks ≡ map (λ (s : LaidShape). false) shapes.now) }
{
    let mut marks = Items::new(alloc);
    for _shape in shapes {
        marks.push(false)?;
    }
    Ok(marks)
}

impl Marks {
    /// Outside of parallel loops nothing is marked.
    pub fn outside(alloc: Global, shapes: &[Shape]) -> Result<Marks, Memory>
        ensures accessed { IfOk result (λ marks. marks.accessed ≡ map (λ (s : LaidShape). false) shapes.now) }
        ensures reduced { IfOk result (λ marks. marks.reduced ≡ map (λ (s : LaidShape). false) shapes.now) }
    {
        let accessed = no_marks(alloc, shapes)?;
        let reduced = no_marks(alloc, shapes)?;
        Ok(Marks { accessed, reduced })
    }

    /// In a parallel loop.
    pub fn inside(alloc: Global, table: &SlotTable, names: &LoopNames<'_>) -> Result<Marks, Memory>
        ensures accessed { IfOk result (λ marks. marks.accessed ≡ map (λ (s : LaidShape). accessed_by names.now s.name) table.now.0) }
        ensures reduced { IfOk result (λ marks. marks.reduced ≡ map (λ (s : LaidShape). is_plus (class_by names.now s.name)) table.now.0) }
    {
        let accessed = accessed_marks(alloc, table, names)?;
        let reduced = reduced_marks(alloc, table, names)?;
        Ok(Marks { accessed, reduced })
    }
}
