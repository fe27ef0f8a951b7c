ghost use Rattle.std.specs.Prelude.{◌≡◌, ◌+◌, ◌*◌, ◌<◌, ◌≤◌, ◌^◌, length, slice_index, IfOk, vec_len, []};
ghost use Rattle.operations.specs.Ops.{acts_all};
ghost use Rattle.operations.specs.Order.{in_order};
ghost use Rattle.operations.specs.Due.{AllDue, due_after};
ghost use Rattle.op_table.specs.Rule.{view};
ghost use Rattle.op_table_tests.specs.Listed.{iteration, chunk_of};

use crate::team::{Sweep, after_all};
use fl_base::Memory;
use op_table::{OpTable, Plan, Worker};
use operations::Cells;
use std::alloc::Global;
use std::thread::Threads;

/// Iterations on two cells of their own and on the last cell, to which all add. Two of them are a chunk.
#[derive(Drop)]
pub struct Lists {
    opening: Vec<u64>,
    tape: Vec<u64>,
    chunks: u32,
    ghost sized: { (vec_len opening ≡ 4 * chunks + 1) × (vec_len tape ≡ 2 * chunks) × (chunks < 2 ^ 28) },
}

impl Plan for Lists {
    ghost ops = { λ t k. chunk_of t.opening.items t.tape.items (4 * t.chunks) k };
}

impl Lists {
    pub fn of(opening: Vec<u64>, tape: Vec<u64>, chunks: u32) -> Lists
        requires opening { vec_len opening ≡ 4 * chunks + 1 }
        requires tape { vec_len tape ≡ 2 * chunks }
        requires few { chunks < 2 ^ 28 }
        ensures { (result.opening ≡ opening) × (result.tape ≡ tape) × (result.chunks ≡ chunks) }
    {
        Lists {
            opening,
            tape,
            chunks,
        }
    }

    fn iterate<C: Cells>(&self, cells: &mut C, i: u32)
        requires place { i < 2 * self.now.chunks }
        requires sized { length (C.cells cells.old) ≡ length self.now.opening.items }
        requires word { slice_index (C.cells cells.old) (2 * i) ≡ slice_index self.now.opening.items (2 * i) }
        requires due { AllDue (C.due cells.old)
            (iteration self.now.opening.items self.now.tape.items (4 * self.now.chunks) i) }
        ensures cells { C.cells cells.new
            ≡ acts_all (iteration self.now.opening.items self.now.tape.items (4 * self.now.chunks) i) (C.cells cells.old) }
        ensures due { C.due cells.new ≡ due_after (C.due cells.old) 4 }
        ensures home { C.home cells.new ≡ C.home cells.old }
    {
        let amount = self.tape[i as usize];
        let word = cells.load(2 * i);
        cells.store(2 * i, word.wrapping_add(amount));
        cells.store(2 * i + 1, word);
        cells.add(4 * self.chunks, word);
    }
}

impl Sweep for Lists {
    ghost chunks = { λ t. t.chunks };

    ghost opening = { λ t. t.opening.items };

    fn sweep<C: Cells>(&self, cells: &mut C, chunk: u32) {
        self.iterate(cells, 2 * chunk);
        self.iterate(cells, 2 * chunk + 1);
    }
}

/// A table for the lists, and its first worker.
pub fn table_of(
    alloc: Global,
    lists: Lists,
    workers: u32,
) -> Result<(OpTable<Lists>, Worker<Lists>), Memory>
    requires { 0 < workers }
    ensures table { IfOk result (λ t. (t.0.table.shared.key.plan ≡ lists)
        × (t.0.table.shared.key.words.items ≡ lists.opening.items)
        × (t.0.table.shared.key.chunks ≡ lists.chunks) × (t.0.table.shared.key.parts ≡ workers)) }
    ensures worker { IfOk result (λ t. (t.1.seat.table_id ≡ t.0.table.shared.table_id)
        × (t.1.seat.me.0 ≡ view [] [] workers)) }
{
    let words = Vec::from_slice(alloc, &lists.opening)?;
    let chunks = lists.chunks;
    let table = OpTable::make(alloc, lists, words, chunks, workers)?;
    Ok(table)
}

/// The words after all iterations, made by so many workers.
pub fn after_team<R: Threads + Sync>(
    rt: &R,
    alloc: Global,
    lists: Lists,
    workers: u32,
) -> Result<Vec<u64>, Memory>
    requires { 0 < workers }
    ensures { IfOk result (λ v. v.items
        ≡ acts_all (in_order (chunk_of lists.opening.items lists.tape.items (4 * lists.chunks)) lists.chunks)
        lists.opening.items) }
{
    let (table, worker) = table_of(alloc, lists, workers)?;
    Ok(after_all(rt, table, worker, workers))
}
