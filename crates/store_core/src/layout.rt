ghost use Rattle.std.specs.Prelude.{◌≡◌, ◌+◌, ◌*◌, ◌<◌, ◌≤◌, ◌^◌, true, length, slice_get, List, [], ◌∷◌, All, IfSome, IfOk, Some, None, option_map, take};
ghost use Rattle.store_core.specs.Keys.{step_of, size_of, offset_of, keys_of, slot_of, place_in_slot, place_of, laid, scalar, HasEachOnce, with_scalars, LaysWithin};
ghost use Rattle.store_core.specs.Bounds.{IsLow};
ghost use Rattle.store_core.specs.Places.{are_scalars};
ghost use Rattle.store_core.specs.declared.layout.LayoutError.TheVariants.{Memory as memory};

use crate::bound::{Axis, size};
use fl_ast::{Decl, Memory, Name};
use fl_base::Items;
use std::alloc::{AllocError, AllocFailed, Global};
use std::marker::Model;
use thiserror::Error;

/// A name that has places, with no axes where it is a scalar.
#[derive(Drop)]
pub struct Shape {
    pub name: Name,
    pub axes: Items<Axis>,
}

impl Axis {
    /// How far above the lower bound a subscript is, or `None` outside the bounds.
    fn step(&self, subscript: i64) -> Option<u32>
        requires { self.now.extent ≤ 2 ^ 21 }
        ensures value { result ≡ step_of self.now subscript }
        ensures below { IfSome result (λ step. step < self.now.extent) }
    {
        let at = i128::from(subscript).checked_sub(self.lower)?;
        if 0 <= at && (at as u128) < self.extent {
            Some(at as u32)
        } else {
            None
        }
    }
}

/// The column-major position of subscripts.
fn offset(axes: &[Axis], subscripts: &[i64]) -> Option<u32>
    requires some { 0 < size_of axes.now }
    requires room { size_of axes.now ≤ 2 ^ 21 }
    ensures value { result ≡ offset_of axes.now subscripts.now }
    ensures below { IfSome result (λ k. k < size_of axes.now) }
{
    if axes.len() != subscripts.len() {
        return None;
    }
    let mut offset = 0;
    let mut i = axes.len();
    while i > 0 {
        i -= 1;
        let axis = axes[i];
        match axis.step(subscripts[i]) {
            Some(step) => offset = step + axis.extent as u32 * offset,
            None => return None,
        }
    }
    Some(offset)
}

/// The greatest number of places of a program.
const PLACES: u32 = 0x10_0000;

/// The same with all further scalars.
const PLACES_AND_SCALARS: u32 = 0x20_0000;

/// Why there is no layout.
#[derive(Debug, Drop, Error)]
pub enum LayoutError {
    #[error("too many places")]
    TooManyPlaces,
    #[error("no memory")]
    Memory,
}

impl From<Memory> for LayoutError {
    ghost from_gives = { λ _ e. e ≡ memory };

    fn from(_e: Memory) -> LayoutError {
        LayoutError::Memory
    }
}

impl From<AllocError> for LayoutError {
    ghost from_gives = { λ _ e. e ≡ memory };

    fn from(_e: AllocError) -> LayoutError {
        LayoutError::Memory
    }
}

impl<T: Drop> From<AllocFailed<T>> for LayoutError {
    ghost from_gives = { λ _ e. e ≡ memory };

    fn from(_e: AllocFailed<T>) -> LayoutError {
        LayoutError::Memory
    }
}

/// The places of a program: each name with its bounds, in order. A place is a position in the list of all names with
/// their subscripts, an array's in column-major order (Fortran 2018, 9.5.3.2).
#[derive(Drop)]
pub struct Layout {
    shapes: Items<Shape>,
    firsts: Vec<u32>,
}

impl Model for Layout {
    ghost use Rattle.std.specs.Prelude.{List};
    ghost use Rattle.store_core.specs.declared.layout.Shape.{Shape};

    ghost Value = { List Shape };

    ghost use Rattle.store_core.specs.Keys.{IsLaidOut};

    ghost view = { λ layout. layout.shapes };

    ghost invariant = { λ layout. IsLaidOut layout.shapes layout.firsts.items };
}

impl Layout {
    /// A layout without places.
    pub(crate) fn empty(alloc: Global) -> Result<Layout, LayoutError>
        ensures { LaysWithin (2 ^ 20) result [] }
    {
        let mut firsts = Vec::new(alloc);
        firsts.push(0)?;
        Ok(Layout {
            shapes: Items::new(alloc),
            firsts,
        })
    }

    /// The layout with one shape more, unless a shape has its name.
    pub(crate) fn with(self, shape: Shape) -> Result<Layout, LayoutError>
        requires few { length (keys_of self) ≤ 2 ^ 20 }
        requires low { All IsLow shape.axes }
        ensures { LaysWithin (2 ^ 20) result (laid self shape) }
    {
        self.within(PLACES, shape)
    }

    /// The layout with a scalar more, unless it has a place.
    fn with_scalar(self, alloc: Global, name: &Name) -> Result<Layout, LayoutError>
        ensures { LaysWithin (2 ^ 21) result (laid self (scalar name.now)) }
    {
        let shape = scalar_shape(alloc, name)?;
        self.within(PLACES_AND_SCALARS, shape)
    }

    /// The layout with one shape more, unless a shape has its name, of `limit` places at most.
    fn within(self, limit: u32, shape: Shape) -> Result<Layout, LayoutError>
        requires few { length (keys_of self) ≤ limit }
        requires limit { limit ≤ 2 ^ 21 }
        requires low { All IsLow shape.axes }
        ensures { LaysWithin limit result (laid self shape) }
    {
        let count = self.count();
        match self.slot(&shape.name) {
            Some(_) => Ok(self),
            None => self.with_new(count, limit, shape),
        }
    }

    /// The layout of `count` places with one shape more, whose name isn't there yet.
    fn with_new(self, count: u32, limit: u32, shape: Shape) -> Result<Layout, LayoutError>
        requires counted { count ≡ length (keys_of self) }
        requires small { count ≤ limit }
        requires limit { limit ≤ 2 ^ 21 }
        requires new { None ≡ slot_of self shape.name }
        requires low { All IsLow shape.axes }
        ensures { LaysWithin limit result (laid self shape) }
    {
        let more = size(shape.axes.as_slice());
        if more > u64::from(limit - count) {
            return Err(LayoutError::TooManyPlaces);
        }
        let Layout {
            mut shapes,
            mut firsts,
        } = self;
        let next = count + more as u32;
        firsts.push(next)?;
        shapes.push(shape)?;
        Ok(Layout { shapes, firsts })
    }

    fn copy(&self, alloc: Global) -> Result<Layout, LayoutError>
        ensures { LaysWithin (2 ^ 21) result self.now }
    {
        let shapes = copy_shapes(alloc, self.shapes.as_slice())?;
        let firsts = Vec::from_slice(alloc, &self.firsts)?;
        Ok(Layout { shapes, firsts })
    }

    /// The layout with a place for each further name of the declarations, as for a scalar: those that live in a loop
    /// alone. These places come after all others and don't count for the limit of places. `TooManyPlaces` takes more
    /// than 2^20 such names.
    pub fn with_scalars(&self, alloc: Global, decls: &[Decl]) -> Result<Layout, LayoutError>
        ensures { LaysWithin (2 ^ 21) result (with_scalars self.now decls.now) }
    {
        let mut layout = self.copy(alloc)?;
        for decl in decls {
            layout = layout.with_scalar(alloc, &decl.name)?;
        }
        Ok(layout)
    }

    /// The number of places.
    pub fn count(&self) -> u32
        ensures value { result ≡ length (keys_of self.now) }
        ensures small { result ≤ 2 ^ 21 }
    {
        self.firsts[self.shapes.len()]
    }

    /// The names that have places, in order.
    pub fn shapes(&self) -> &[Shape]
        ensures value { result.now ≡ self.now }
        ensures low { All (λ shape. All IsLow shape.axes) self.now }
        ensures once { HasEachOnce self.now }
    {
        self.shapes.as_slice()
    }

    /// The first place of a slot, or the number of places at the end.
    pub fn first(&self, slot: usize) -> u32
        requires { slot ≤ length self.now }
        ensures value { result ≡ length (keys_of (take slot self.now)) }
        ensures small { result ≤ 2 ^ 21 }
    {
        self.firsts[slot]
    }

    /// The first place after those of a slot.
    pub fn next(&self, slot: usize) -> u32
        requires { slot < length self.now }
        ensures value { result ≡ length (keys_of (take (slot + 1) self.now)) }
        ensures small { result ≤ length (keys_of self.now) }
        ensures after { length (keys_of (take slot self.now)) ≤ result }
        ensures room { result ≤ 2 ^ 21 }
    {
        let _shape = &self.shapes.as_slice()[slot];
        self.firsts[slot + 1]
    }

    /// The number of the shape of a name, for `place_in`.
    pub fn slot(&self, name: &Name) -> Option<usize>
        ensures value { result ≡ slot_of self.now name.now }
        ensures within { IfSome result (λ slot. slot < length self.now) }
    {
        slot_among(self.shapes.as_slice(), name)
    }

    /// The place of subscripts at the name of a slot.
    pub fn place_in(&self, slot: usize, subscripts: &[i64]) -> Option<u32>
        requires { slot < length self.now }
        ensures { result ≡ place_in_slot self.now slot subscripts.now }
    {
        let shape = &self.shapes.as_slice()[slot];
        let axes = shape.axes.as_slice();
        place_from(self.firsts[slot], self.firsts[slot + 1], axes, subscripts)
    }

    /// The place of a slot's name, where all names are scalars.
    pub fn scalar_place(&self, slot: usize) -> u32
        requires within { slot < length self.now }
        requires scalars { are_scalars self.now ≡ true }
        ensures value { place_in_slot self.now slot [] ≡ Some result }
        ensures below { result < length (keys_of self.now) }
    {
        self.firsts[slot]
    }

    /// The place of a name with subscripts.
    pub fn place(&self, name: &Name, subscripts: &[i64]) -> Option<u32>
        ensures value { result ≡ place_of self.now name.now subscripts.now }
        ensures stands { IfSome result (λ place. slice_get (keys_of self.now) place
            ≡ Some (name.now, subscripts.now)) }
        ensures within { IfSome result (λ place. place < length (keys_of self.now)) }
    {
        match self.slot(name) {
            Some(slot) => self.place_in(slot, subscripts),
            None => None,
        }
    }
}

fn scalar_shape(alloc: Global, name: &Name) -> Result<Shape, Memory>
    ensures { IfOk result (λ s. s ≡ scalar name.now) }
{
    Ok(Shape {
        name: name.clone(alloc)?,
        axes: Items::new(alloc),
    })
}

fn copy_shape(alloc: Global, shape: &Shape) -> Result<Shape, Memory>
    ensures { IfOk result (λ s. s ≡ shape.now) }
{
    let mut axes = Items::new(alloc);
    for axis in shape.axes.as_slice() {
        axes.push(*axis)?;
    }
    Ok(Shape {
        name: shape.name.clone(alloc)?,
        axes,
    })
}

fn copy_shapes(alloc: Global, shapes: &[Shape]) -> Result<Items<Shape>, Memory>
    ensures { IfOk result (λ all. all ≡ shapes.now) }
{
    let mut all = Items::new(alloc);
    for shape in shapes {
        all.push(copy_shape(alloc, shape)?)?;
    }
    Ok(all)
}

fn slot_among(shapes: &[Shape], name: &Name) -> Option<usize>
    ensures value { result ≡ slot_of shapes.now name.now }
    ensures within { IfSome result (λ slot. slot < length shapes.now) }
{
    for (i, shape) in shapes.iter().enumerate() {
        if name.is(&shape.name) {
            return Some(i);
        }
    }
    None
}

/// The place of a subscript on an axis of an array whose first place is `first`.
fn place_on_axis(first: u32, next: u32, axis: Axis, subscript: i64) -> Option<u32>
    requires long { next ≡ first + size_of (axis ∷ []) }
    requires small { next ≤ 2 ^ 21 }
    ensures { result ≡ option_map (λ k. first + k) (offset_of (axis ∷ []) (subscript ∷ [])) }
{
    let step = axis.step(subscript)?;
    Some(first + step)
}

/// The place of subscripts in an array of any rank whose first place is `first`.
fn place_by_offset(first: u32, next: u32, axes: &[Axis], subscripts: &[i64]) -> Option<u32>
    requires long { next ≡ first + size_of axes.now }
    requires small { next ≤ 2 ^ 21 }
    ensures { result ≡ option_map (λ k. first + k) (offset_of axes.now subscripts.now) }
{
    if next == first {
        return None;
    }
    match offset(axes, subscripts) {
        Some(offset) => Some(first + offset),
        None => None,
    }
}

/// The place of subscripts in an array whose first place is `first`. A scalar and one subscript have ways of their own.
fn place_from(first: u32, next: u32, axes: &[Axis], subscripts: &[i64]) -> Option<u32>
    requires long { next ≡ first + size_of axes.now }
    requires small { next ≤ 2 ^ 21 }
    ensures { result ≡ option_map (λ k. first + k) (offset_of axes.now subscripts.now) }
{
    match (axes, subscripts) {
        ([], []) => Some(first),
        ([axis], [only]) => place_on_axis(first, next, *axis, *only),
        _ => place_by_offset(first, next, axes, subscripts),
    }
}
