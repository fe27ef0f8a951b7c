ghost use Rattle.std.specs.Prelude.{◌≡◌, ◌+◌, ◌-◌, ◌%◌, ◌≤◌, ◌^◌, false, true, [], ◌++◌, ℕ, Bool, List, Ok, map, take, drop, length, IfOk};
ghost use Rattle.fl_ast.specs.Tree.{Subroutine, program_tree};
ghost use Rattle.fl_types.specs.Sharing.{has_name};
ghost use Rattle.store_core.specs.Keys.{keys_of};
ghost use Rattle.store_core.specs.Places.{shapes_of};
ghost use Rattle.store_core.specs.Filled.{place_words};
ghost use Rattle.meaning.specs.Sites.{word_of};
ghost use Rattle.meaning.specs.Laws.{values_out};
ghost use Rattle.meaning.specs.Programs.{meaning, final_words};
ghost use Rattle.undo_steps.specs.UndoSteps.{undo_trees};
ghost use Rattle.forward_law.specs.Forward.{tape_back};
ghost use Rattle.reverse_run.specs.Undoing.{are_flat, swept_back, swept_adds};
ghost use Rattle.one_thread.specs.Back.{IsUndoneTo};

use cells::Store;
use fl_base::Memory;
use fl_types::{Choices, NameSet, Typed};
use forward_run::{Forwarded, final_values};
use operations::VecCells;
use reverse_opening::{Undoing, open_reverse};
use reverse_run::{SweptBack, sweep_back};
use std::alloc::Global;
use store_core::{Args, Layout, Tape, Weights};

/// What a run leaves: the word of each place, its adjoint, and how many atomic additions to adjoints were made.
#[derive(Drop)]
pub struct Ran {
    pub values: Vec<u64>,
    pub adjoints: Vec<u64>,
    pub adds: u64,
}

/// Cells with the words of all values, and then those of all adjoints.
fn cells_of(alloc: Global, values: &[u64], weights: &[u64]) -> Result<VecCells, Memory>
    ensures { IfOk result (λ cells. cells ≡ values.now ++ weights.now) }
{
    let mut words = Vec::from_slice(alloc, values)?;
    words.extend_from_slice(weights)?;
    Ok(VecCells::of(Store::of_words(words)))
}

/// The words from a position on, none where there are fewer.
fn words_from(alloc: Global, words: &[u64], from: usize) -> Result<Vec<u64>, Memory>
    ensures { IfOk result (λ rest. rest.items ≡ drop from words.now) }
{
    let rest: &[u64] = if from < words.len() {
        &words[from..]
    } else {
        &[]
    };
    let rest = Vec::from_slice(alloc, rest)?;
    Ok(rest)
}

/// The cells after all is undone.
fn undone(
    alloc: Global,
    undoing: &Undoing,
    cells: VecCells,
    shared: u32,
    tape: Tape,
) -> Result<SweptBack<VecCells>, Memory>
    requires few { shared ≤ 1048576 }
    requires doubled { length cells ≡ shared + shared }
    requires fewer { shared ≤ length (keys_of undoing.now.table.0) }
    requires flat { are_flat shared false (undo_trees undoing.now.body) ≡ true }
    ensures cells { IfOk result (λ back. back.cells
        ≡ swept_back undoing.now.table shared (undo_trees undoing.now.body) (tape_back tape) (length (keys_of undoing.now.table.0) - shared) cells) }
    ensures doubled { IfOk result (λ back. length back.cells ≡ shared + shared) }
    ensures adds { IfOk result (λ back. back.adds
        ≡ swept_adds undoing.now.table shared (undo_trees undoing.now.body) (tape_back tape) (length (keys_of undoing.now.table.0) - shared) cells % 2 ^ 64) }
{
    let own = undoing.table.layout().count() - shared;
    sweep_back(
        alloc,
        &undoing.table,
        undoing.body.as_slice(),
        cells,
        shared,
        own as usize,
        tape,
    )
}

/// Runs the reverse part of a program on one thread, from what its forward sweep left and the seed.
pub fn run_back<W: Drop>(
    alloc: Global,
    typed: &Typed,
    layout: &Layout,
    args: &Args,
    weights: &Weights,
    active: &NameSet,
    needed: &NameSet,
    choices: &Choices,
    forwarded: Forwarded<W>,
) -> Result<Ran, Memory>
    requires laid { layout.now ≡ shapes_of typed.now args.now.entries }
    requires few { length (keys_of layout.now) ≤ 2 ^ 20 }
    requires many { length (keys_of layout.now) ≤ length forwarded.cells.items }
    ensures values { IfOk result (λ r. r.values.items ≡ map word_of (take (length (keys_of layout.now)) forwarded.cells.items)) }
    ensures wide { IfOk result (λ r. length r.adjoints.items ≡ length (keys_of layout.now)) }
    ensures undone { IfOk result (λ r. IsUndoneTo (program_tree typed.now) layout.now (λ x. has_name x needed.now.names) (λ x. has_name x active.now.names)
        choices.now.entries (tape_back forwarded.tape) (r.values.items ++ place_words layout.now weights.now.entries) r.adjoints.items r.adds) }
    ensures meant { (p : Subroutine) (pushed : List ℕ → Bool) (words : List ℕ) → values_out (meaning p layout.now pushed words []).out ≡ Ok forwarded.cells.items
        → IfOk result (λ r. r.values.items ≡ final_words p layout.now words) }
{
    let count = layout.count();
    let _program = typed.program();
    let undoing = open_reverse(alloc, typed, layout, args, active, needed, choices)?;
    let values = final_values(alloc, layout, &forwarded.cells)?;
    let seeds = layout.words_of(alloc, weights.entries.as_slice())?;
    let cells = cells_of(alloc, &values, &seeds)?;
    let Forwarded { tape, .. } = forwarded;
    let SweptBack { cells, adds } = undone(alloc, &undoing, cells, count, tape)?;
    let adjoints = words_from(alloc, cells.into_store().words(), count as usize)?;
    Ok(Ran {
        values,
        adjoints,
        adds,
    })
}
