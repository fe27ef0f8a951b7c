ghost use Rattle.std.specs.Prelude.{◌≡◌, ◌+◌, ◌-◌, ◌≤◌, ◌^◌, ◌++◌, true, Some, length, map, take, slice_get, slice_index, IfOk, OnOk};
ghost use Rattle.fl_ast.specs.Tree.{program_tree, stmt_trees};
ghost use Rattle.fl_types.specs.Kinds.{declared_names, are_well_kinded_statements};
ghost use Rattle.store_core.specs.Keys.{keys_of, with_scalars};
ghost use Rattle.store_core.specs.Places.{shapes_of};
ghost use Rattle.store_core.specs.Filled.{place_words};
ghost use Rattle.store_core.specs.Values.{index_of};
ghost use Rattle.meaning.specs.Sites.{opening_site, with_tangent, word_of};
ghost use Rattle.meaning.specs.Adjoints.{cells_along, tangent_of};
ghost use Rattle.meaning.specs.Programs.{value_of_word, cells_of, no_pushes, meaning};
ghost use Rattle.resolved.specs.SlotTables.{kinds_of, named_kind, names_of};
ghost use Rattle.dual_meaning.specs.Runs.{Ends};
ghost use Rattle.dual_meaning.specs.Tangents.{IsTangent, entry_cell, name_cells, argument_kind as argument_kind_lem, shape_cells};

use crate::privates::has_name;
use crate::program::{run_on, table_of};
use crate::statements::RunStop;
use fl_ast::{Decl, Kind, Memory, Name, Program};
use fl_types::Typed;
use meaning::{Dual, Value};
use resolved::SlotTable;
use ring_core::{Index, Ring, Steps};
use std::alloc::Global;
use std::sync::ledger::Ledger;
use store_core::{Args, Direction, Layout};

/// A word for each place.
#[derive(Drop)]
pub struct Tangents {
    pub values: Vec<u64>,
    pub tangents: Vec<u64>,
}

/// The number of a word, 0 where it is no number of the index kind.
fn number(word: u64) -> i32
    ensures { result ≡ index_of word }
{
    let number = word.cast_signed();
    if -0x8000_0000 <= number && number < 0x8000_0000 {
        number as i32
    } else {
        0
    }
}

fn value_along(kind: Kind, word: u64, tangent: u64) -> Value
    ensures { with_tangent tangent (Some (value_of_word kind word)) ≡ Some result }
{
    match kind {
        Kind::Ring => Value::Ring(Dual {
            value: Ring::of_word(word),
            tangent: Ring::of_word(tangent),
        }),
        Kind::Index => Value::Index(Index::of(number(word))),
    }
}

/// The word at a place, 0 after the last.
fn word_at(words: &[u64], place: usize) -> u64
    ensures { result ≡ slice_index words.now place }
{
    match words.get(place) {
        Some(word) => *word,
        None => 0,
    }
}

/// The cell at a place, whose name is of this kind where it is an argument.
fn cell_at(kind: Option<Kind>, words: &[u64], tangents: &[u64], place: usize) -> Option<Value>
    ensures { result ≡ entry_cell kind (slice_get words.now place) (slice_index tangents.now place) }
{
    match kind {
        None => None,
        Some(kind) => match words.get(place) {
            None => None,
            Some(word) => Some(value_along(kind, *word, word_at(tangents, place))),
        },
    }
}

/// Adds the cells of a name's places.
fn push_cells(
    cells: &mut Vec<Option<Value>>,
    kind: Option<Kind>,
    words: &[u64],
    tangents: &[u64],
    first: u32,
    next: u32,
) -> Result<(), Memory>
    ensures { OnOk result (cells.new.items ≡ cells.old.items ++ name_cells kind words.now tangents.now first (next - first)) }
{
    for k in first..next {
        cells.push(cell_at(kind, words, tangents, k as usize))?;
    }
    Ok(())
}

fn argument_kind(args: &[Name], kind: Kind, name: &Name) -> Option<Kind>
    ensures { result ≡ argument_kind_lem args.now kind name.now }
{
    if has_name(args, name) {
        Some(kind)
    } else {
        None
    }
}

/// The cells of all names of a table.
fn cells_by(
    alloc: Global,
    table: &SlotTable,
    decls: &[Decl],
    args: &[Name],
    words: &[u64],
    tangents: &[u64],
) -> Result<Vec<Option<Value>>, Memory>
    requires kinds { table.now.1 ≡ kinds_of decls.now table.now.0 }
    ensures { IfOk result (λ cells. cells.items ≡ shape_cells (named_kind decls.now) args.now words.now tangents.now 0 table.now.0) }
{
    let mut cells = Vec::new(alloc);
    let layout = table.layout();
    let _declared = decls.len();
    for (i, shape) in layout.shapes().iter().enumerate() {
        let kind = argument_kind(args, table.kind(i), &shape.name);
        push_cells(
            &mut cells,
            kind,
            words,
            tangents,
            layout.first(i),
            layout.next(i),
        )?;
    }
    Ok(cells)
}

/// The cells of a program's entry: its arguments have their words and tangents, everything else is unset.
fn opening_cells(
    alloc: Global,
    table: &SlotTable,
    layout: &Layout,
    decls: &[Decl],
    args: &[Name],
    words: &[u64],
    tangents: &[u64],
) -> Result<Vec<Option<Value>>, Memory>
    requires named { table.now ≡ names_of layout.now decls.now }
    ensures { IfOk result (λ cells. cells.items
        ≡ cells_along tangents.now (cells_of (opening_site decls.now layout.now no_pushes) args.now (keys_of (with_scalars layout.now decls.now)) words.now)) }
{
    let _places = layout.count();
    cells_by(alloc, table, decls, args, words, tangents)
}

fn word(cell: Option<Value>) -> u64
    ensures { result ≡ word_of cell }
{
    match cell {
        None => 0,
        Some(value) => value_word(value),
    }
}

fn value_word(value: Value) -> u64
    ensures { result ≡ word_of (Some value) }
{
    match value {
        Value::Index(_) => i64::from(value.whole_number()).cast_unsigned(),
        Value::Ring(dual) => dual.value.word(),
    }
}

fn tangent_word(cell: Option<Value>) -> u64
    ensures { result ≡ tangent_of cell }
{
    match cell {
        None => 0,
        Some(Value::Index(_)) => 0,
        Some(Value::Ring(dual)) => dual.tangent.word(),
    }
}

/// The first cells, or all where there are fewer.
fn front(cells: &[Option<Value>], count: usize) -> &[Option<Value>]
    ensures { result.now ≡ take count cells.now }
{
    if count < cells.len() {
        &cells[..count]
    } else {
        cells
    }
}

fn words_of(alloc: Global, cells: &[Option<Value>]) -> Result<Vec<u64>, Memory>
    ensures { IfOk result (λ words. words.items ≡ map word_of cells.now) }
{
    let mut words = Vec::new(alloc);
    for cell in cells {
        words.push(word(*cell))?;
    }
    Ok(words)
}

fn tangents_of(alloc: Global, cells: &[Option<Value>]) -> Result<Vec<u64>, Memory>
    ensures { IfOk result (λ words. words.items ≡ map tangent_of cells.now) }
{
    let mut words = Vec::new(alloc);
    for cell in cells {
        words.push(tangent_word(*cell))?;
    }
    Ok(words)
}

/// The words and the tangents of the first cells.
fn found(alloc: Global, cells: &[Option<Value>], count: usize) -> Result<Tangents, Memory>
    ensures values { IfOk result (λ t. t.values.items ≡ map word_of (take count cells.now)) }
    ensures tangents { IfOk result (λ t. t.tangents.items ≡ map tangent_of (take count cells.now)) }
{
    let cells = front(cells, count);
    let values = words_of(alloc, cells)?;
    let tangents = tangents_of(alloc, cells)?;
    Ok(Tangents { values, tangents })
}

/// Runs a program from the words of its places, in the direction of `along`.
fn run_along<L: Ledger>(
    alloc: Global,
    program: &Program,
    layout: &Layout,
    words: &[u64],
    along: &[u64],
    steps: &mut Steps<L>,
) -> Result<Vec<Option<Value>>, RunStop>
    requires few { length (keys_of layout.now) + length program.now.decls ≤ 2 ^ 21 }
    requires kinded { are_well_kinded_statements (declared_names program.now.decls) (stmt_trees program.now.body) ≡ true }
    ensures { Ends (λ end. end.items) (meaning (program_tree program.now) layout.now no_pushes words.now along.now) result steps.old steps.new }
{
    let decls = program.decls.as_slice();
    let table = table_of(alloc, layout, decls)?;
    let args = program.args.as_slice();
    let cells = opening_cells(alloc, &table, layout, decls, args, words, along)?;
    run_on(
        alloc,
        &table,
        layout,
        decls,
        program.body.as_slice(),
        cells,
        steps,
    )
}

/// The values of all places at the end of a program, and their tangents for a direction at its beginning, which has 0
/// where it has no entry. Arguments alone have words and tangents at the beginning, everything else is unset. It ticks once
/// for each statement instance. It ends early at a trap, where one statement instance more than 2^24 would begin, and where
/// memory is wanting.
pub fn tangent<L: Ledger>(
    alloc: Global,
    typed: &Typed,
    layout: &Layout,
    args: &Args,
    direction: &Direction,
    steps: &mut Steps<L>,
) -> Result<Tangents, RunStop>
    requires laid { layout.now ≡ shapes_of typed.now args.now.entries }
    requires few { length (keys_of layout.now) ≤ 2 ^ 20 }
    ensures { IsTangent (program_tree typed.now) layout.now (place_words layout.now args.now.entries)
        (place_words layout.now direction.now.entries) result steps.old steps.new }
{
    let program = typed.program();
    let words = layout.words_of(alloc, args.entries.as_slice())?;
    let along = layout.words_of(alloc, direction.entries.as_slice())?;
    match run_along(alloc, program, layout, &words, &along, steps) {
        Ok(end) => Ok(found(alloc, &end, layout.count() as usize)?),
        Err(stop) => Err(stop),
    }
}
