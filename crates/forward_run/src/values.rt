ghost use Rattle.std.specs.Prelude.{◌≡◌, [], ℕ, Bool, List, Ok, map, take, length, IfOk};
ghost use Rattle.fl_ast.specs.Tree.{Subroutine};
ghost use Rattle.store_core.specs.Keys.{keys_of};
ghost use Rattle.meaning.specs.Sites.{word_of};
ghost use Rattle.meaning.specs.Laws.{values_out};
ghost use Rattle.meaning.specs.Programs.{meaning, final_words};

use fl_base::Memory;
use meaning::Value;
use std::alloc::Global;
use store_core::Layout;

fn word(cell: Option<Value>) -> u64
    ensures { result ≡ word_of cell }
{
    match cell {
        None => 0,
        Some(value) => value.as_dual().value.word(),
    }
}

/// The first cells, or all where there are fewer.
fn front(cells: &[Option<Value>], count: usize) -> &[Option<Value>]
    ensures { result.now ≡ take count cells.now }
{
    if count < cells.len() {
        &cells[..count]
    } else {
        cells
    }
}

fn words_of(alloc: Global, cells: &[Option<Value>]) -> Result<Vec<u64>, Memory>
    ensures { IfOk result (λ words. words.items ≡ map word_of cells.now) }
{
    let mut words = Vec::new(alloc);
    for cell in cells {
        words.push(word(*cell))?;
    }
    Ok(words)
}

/// The words of a layout's places at the end of a run, 0 where a place is unset: cells beyond are those of names that live
/// in loops alone.
pub fn final_values(
    alloc: Global,
    layout: &Layout,
    cells: &[Option<Value>],
) -> Result<Vec<u64>, Memory>
    ensures first { IfOk result (λ values. values.items ≡ map word_of (take (length (keys_of layout.now)) cells.now)) }
    ensures meant { (p : Subroutine) (pushed : List ℕ → Bool) (words : List ℕ) → values_out (meaning p layout.now pushed words []).out ≡ Ok cells.now
        → IfOk result (λ values. values.items ≡ final_words p layout.now words) }
{
    words_of(alloc, front(cells, layout.count() as usize))
}
