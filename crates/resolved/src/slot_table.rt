ghost use Rattle.std.specs.Prelude.{◌≡◌, ◌<◌, length, map, IfOk};
ghost use Rattle.fl_ast.specs.declared.decl.Decl.{Decl as Declaration};
ghost use Rattle.fl_types.specs.Sharing.{is_ring_name, is_ring_kind as is_ring_kind_lem};
ghost use Rattle.resolved.specs.SlotTables.{kind_at, kinds_of, named_kind, table_site, Tabulates};
ghost use Rattle.meaning.specs.Sites.{kind_of as kind_of_lem, width_of as width_of_lem, data_width as data_width_lem};
ghost use Rattle.resolved.specs.ResolvedExprs.{slot_name};

use fl_ast::{Decl, Kind, Memory, Name};
use fl_base::Items;
use ring_core::Width;
use std::alloc::Global;
use std::marker::Model;
use store_core::{Layout, LayoutError, Shape};

/// The names of a run, which all have slots: those of a program's layout, and after them the scalars that live in a loop
/// alone. Contracts see the shapes and the kinds, slot by slot, the width of data, and the declared names in their order.
#[derive(Drop)]
pub struct SlotTable {
    layout: Layout,
    kinds: Vec<Kind>,
    width: Width,
    declared: Items<Name>,
}

impl Model for SlotTable {
    ghost use Rattle.std.specs.Prelude.{ℕ, List, ◌≡◌, length};
    ghost use Rattle.fl_ast.specs.declared.kind.Kind.{Kind};
    ghost use Rattle.ring_core.specs.declared.ring.Width.{Width};
    ghost use Rattle.store_core.specs.declared.layout.Shape.{Shape};

    ghost Value = { List Shape × List Kind × Width × List (List ℕ) };

    ghost view = { λ table. (table.layout, table.kinds.items, table.width, table.declared) };

    ghost use Rattle.store_core.specs.Keys.{HasEachOnce};

    ghost invariant = { λ table. (length table.kinds.items ≡ length table.layout) × HasEachOnce table.layout };
}

impl SlotTable {
    /// The table of a program with this layout and these declarations.
    pub fn of(alloc: Global, layout: &Layout, decls: &[Decl]) -> Result<SlotTable, LayoutError>
        ensures { Tabulates result layout.now decls.now }
    {
        let layout = layout.with_scalars(alloc, decls)?;
        let kinds = kinds(alloc, decls, layout.shapes())?;
        let width = data_width(decls);
        let declared = declared_names(alloc, decls)?;
        Ok(SlotTable {
            layout,
            kinds,
            width,
            declared,
        })
    }

    /// Where each name has its cells.
    pub fn layout(&self) -> &Layout
        ensures { result.now ≡ self.now.0 }
    {
        &self.layout
    }

    /// How many bits of a word the data of the program has.
    pub fn width(&self) -> Width
        ensures { result ≡ self.now.2 }
    {
        self.width
    }

    /// The declared names, in the order of the declarations.
    pub fn declared(&self) -> &[Name]
        ensures { result.now ≡ self.now.3 }
    {
        self.declared.as_slice()
    }

    /// The kind of a slot's name.
    pub fn kind(&self, slot: usize) -> Kind
        requires { slot < length self.now.0 }
        ensures value { result ≡ kind_at self.now.1 slot }
        ensures named { result ≡ kind_of_lem (table_site self.now) (slot_name self.now.0 slot) }
    {
        self.kinds[slot]
    }
}

fn is_ring_kind(kind: Kind) -> bool
    ensures { result ≡ is_ring_kind_lem kind }
{
    match kind {
        Kind::Ring => true,
        Kind::Index => false,
    }
}

fn width_of(bytes: u32) -> Width
    ensures { result ≡ width_of_lem bytes }
{
    match bytes {
        1 => Width::Bits8,
        2 => Width::Bits16,
        _ => Width::Bits64,
    }
}

fn data_width(decls: &[Decl]) -> Width
    ensures { result ≡ data_width_lem decls.now }
{
    for decl in decls {
        if is_ring_kind(decl.kind) {
            return width_of(decl.bytes);
        }
    }
    Width::Bits64
}

fn is_ring(decls: &[Decl], name: &Name) -> bool
    ensures { result ≡ is_ring_name decls.now name.now }
{
    for decl in decls {
        if name.is(&decl.name) {
            if is_ring_kind(decl.kind) {
                return true;
            }
        }
    }
    false
}

fn kind_of(decls: &[Decl], name: &Name) -> Kind
    ensures { result ≡ named_kind decls.now name.now }
{
    if is_ring(decls, name) {
        Kind::Ring
    } else {
        Kind::Index
    }
}

fn kinds(alloc: Global, decls: &[Decl], shapes: &[Shape]) -> Result<Vec<Kind>, Memory>
    ensures { IfOk result (λ kinds. kinds.items ≡ kinds_of decls.now shapes.now) }
{
    let mut kinds = Vec::new(alloc);
    for shape in shapes {
        kinds.push(kind_of(decls, &shape.name))?;
    }
    Ok(kinds)
}

fn declared_names(alloc: Global, decls: &[Decl]) -> Result<Items<Name>, Memory>
    ensures { IfOk result (λ names. names ≡ map (λ (d : Declaration). d.name) decls.now) }
{
    let mut names = Items::new(alloc);
    for decl in decls {
        names.push(decl.name.clone(alloc)?)?;
    }
    Ok(names)
}
