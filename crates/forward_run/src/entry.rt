ghost use Rattle.std.specs.Prelude.{◌≡◌, ◌-◌, ◌++◌, [], ◌∷◌, ℕ, Bool, List, slice_get, length, IfOk, OnOk};
ghost use Rattle.fl_types.specs.Sharing.{has_name as has_name_lem};
ghost use Rattle.store_core.specs.Keys.{keys_of, with_scalars};
ghost use Rattle.store_core.specs.Values.{index_of};
ghost use Rattle.meaning.specs.Sites.{opening_site};
ghost use Rattle.meaning.specs.Fitting.{Fits};
ghost use Rattle.meaning.specs.Adjoints.{cells_along};
ghost use Rattle.meaning.specs.Programs.{value_of_word, cells_of, no_pushes};
ghost use Rattle.resolved.specs.SlotTables.{kinds_of, named_kind, names_of};
ghost use Rattle.dual_meaning.specs.Tangents.{entry_cell, name_cells, argument_kind as argument_kind_lem, shape_cells};

use fl_ast::{Decl, Kind, Name};
use fl_base::Memory;
use meaning::{Dual, Value};
use resolved::SlotTable;
use ring_core::{Index, Ring};
use std::alloc::Global;
use store_core::Layout;

/// The number of a word, 0 where it is no number of the index kind.
fn number(word: u64) -> i32
    ensures { result ≡ index_of word }
{
    let number = word.cast_signed();
    if -0x8000_0000 <= number && number < 0x8000_0000 {
        number as i32
    } else {
        0
    }
}

fn value_of(kind: Kind, word: u64) -> Value
    ensures { result ≡ value_of_word kind word }
{
    match kind {
        Kind::Ring => Value::Ring(Dual::constant(Ring::of_word(word))),
        Kind::Index => Value::Index(Index::of(number(word))),
    }
}

/// The content of a place, whose name is of this kind where it is an argument.
fn cell_at(kind: Option<Kind>, words: &[u64], place: usize) -> Option<Value>
    ensures { result ≡ entry_cell kind (slice_get words.now place) 0 }
{
    match kind {
        None => None,
        Some(kind) => match words.get(place) {
            None => None,
            Some(word) => Some(value_of(kind, *word)),
        },
    }
}

/// Adds the contents of a name's places.
fn push_cells(
    cells: &mut Vec<Option<Value>>,
    kind: Option<Kind>,
    words: &[u64],
    first: u32,
    next: u32,
) -> Result<(), Memory>
    ensures { OnOk result (cells.new.items ≡ cells.old.items ++ name_cells kind words.now [] first (next - first)) }
{
    for k in first..next {
        cells.push(cell_at(kind, words, k as usize))?;
    }
    Ok(())
}

pub(crate) fn has_name(names: &[Name], name: &Name) -> bool
    ensures { result ≡ has_name_lem name.now names.now }
{
    for other in names {
        if name.is(other) {
            return true;
        }
    }
    false
}

fn argument_kind(args: &[Name], kind: Kind, name: &Name) -> Option<Kind>
    ensures { result ≡ argument_kind_lem args.now kind name.now }
{
    if has_name(args, name) {
        Some(kind)
    } else {
        None
    }
}

/// The contents of the places of all names of a table.
fn cells_by(
    alloc: Global,
    table: &SlotTable,
    decls: &[Decl],
    args: &[Name],
    words: &[u64],
) -> Result<Vec<Option<Value>>, Memory>
    requires kinds { table.now.1 ≡ kinds_of decls.now table.now.0 }
    ensures { IfOk result (λ cells. cells.items ≡ shape_cells (named_kind decls.now) args.now words.now [] 0 table.now.0) }
{
    let mut cells = Vec::new(alloc);
    let layout = table.layout();
    let _declared = decls.len();
    for (i, shape) in layout.shapes().iter().enumerate() {
        let kind = argument_kind(args, table.kind(i), &shape.name);
        push_cells(&mut cells, kind, words, layout.first(i), layout.next(i))?;
    }
    Ok(cells)
}

/// The contents of all places at a program's entry: its arguments have their words, everything else is unset.
pub(crate) fn opening_cells(
    alloc: Global,
    table: &SlotTable,
    layout: &Layout,
    decls: &[Decl],
    args: &[Name],
    words: &[u64],
) -> Result<Vec<Option<Value>>, Memory>
    requires named { table.now ≡ names_of layout.now decls.now }
    ensures cells { IfOk result (λ cells. cells.items
        ≡ cells_along [] (cells_of (opening_site decls.now layout.now no_pushes) args.now (keys_of (with_scalars layout.now decls.now)) words.now)) }
    ensures fit { (pushed : List ℕ → Bool) → IfOk result (λ cells. Fits (opening_site decls.now layout.now pushed) cells.items) }
{
    let _places = layout.count();
    cells_by(alloc, table, decls, args, words)
}
