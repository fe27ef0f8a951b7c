ghost use Rattle.std.specs.Prelude.{◌≡◌, ◌≢◌, ℕ, ◌<◌, ◌≤◌, [], List, Some, true, length};
ghost use Rattle.std.specs.Thread.{IsSync};
ghost use Rattle.operations.specs.Ops.{acts_all};
ghost use Rattle.operations.specs.Order.{in_order};
ghost use Rattle.op_table.specs.Rule.{lists, position_of};
ghost use Rattle.op_table.specs.Plays.{work, IsFinished};
ghost use Rattle.op_table_tests.specs.Team.{AtEnds, IsFor};

use op_table::{OpTable, Plan, SeatCells, Worker};
use operations::Cells;
use std::thread::{Threads, join};

/// A plan that can make the operations of a chunk.
pub trait Sweep: Plan {
    // The number of chunks.
    ghost chunks: { Self → ℕ };

    // The opening words.
    ghost opening: { Self → List ℕ };

    fn sweep<C: Cells>(&self, cells: &mut C, chunk: u32)
        requires due { C.due cells.old ≡ Some (Self.ops self.now chunk) }
        requires chunk { chunk < Self.chunks self.now }
        requires cells { C.cells cells.old ≡ Self.opening self.now }
        ensures due { C.due cells.new ≡ Some [] }
        ensures home { C.home cells.new ≡ C.home cells.old };
}

// Makes all operations of a chunk.
fn with_chunk<P: Sweep>(table: &OpTable<P>, worker: Worker<P>, chunk: u32) -> Worker<P>
    requires fits { worker.seat.table_id ≡ table.now.table.shared.table_id }
    requires start { (lists chunk worker.seat.me.0.held ≡ true) × (position_of chunk worker.seat.me.0.held ≡ 0) }
    requires chunk { chunk < table.now.table.shared.key.chunks }
    requires ready { IsFor P.chunks P.opening table.now.table.shared.key }
    ensures same { (result.seat.table_id ≡ worker.seat.table_id)
        × (result.seat.me.0.parts ≡ worker.seat.me.0.parts) }
    ensures lists { (k : ℕ) → lists k result.seat.me.0.held ≡ lists k worker.seat.me.0.held }
    ensures others { (k : ℕ) → k ≢ chunk
        → position_of k result.seat.me.0.held ≡ position_of k worker.seat.me.0.held }
    ensures end { length (P.ops table.now.table.shared.key.plan chunk) ≤ position_of chunk result.seat.me.0.held }
{
    let mut cells = SeatCells::of(worker, table, chunk);
    table.plan().sweep(&mut cells, chunk);
    cells.into_worker()
}

// Claims a chunk, and does it if nobody had it.
fn with_one<P: Sweep>(table: &OpTable<P>, mut worker: Worker<P>, chunk: u32) -> Worker<P>
    requires fits { worker.seat.table_id ≡ table.now.table.shared.table_id }
    requires ready { IsFor P.chunks P.opening table.now.table.shared.key }
    requires chunk { chunk < table.now.table.shared.key.chunks }
    requires ends { AtEnds (work P.ops table.now.table.shared.key) worker.seat.me.0 }
    ensures same { (result.seat.table_id ≡ worker.seat.table_id)
        × (result.seat.me.0.parts ≡ worker.seat.me.0.parts) }
    ensures lists { (k : ℕ) → lists k worker.seat.me.0.held ≡ true → lists k result.seat.me.0.held ≡ true }
    ensures ends { AtEnds (work P.ops table.now.table.shared.key) result.seat.me.0 }
    ensures mine { worker.seat.me.0.parts ≡ table.now.table.shared.key.parts
        → lists chunk result.seat.me.0.held ≡ true }
{
    if worker.claim(table, chunk) {
        with_chunk(table, worker, chunk)
    } else {
        worker
    }
}

// Claims each chunk, and does those that nobody had.
fn with_free<P: Sweep>(table: &OpTable<P>, mut worker: Worker<P>) -> Worker<P>
    requires fits { worker.seat.table_id ≡ table.now.table.shared.table_id }
    requires ready { IsFor P.chunks P.opening table.now.table.shared.key }
    requires ends { AtEnds (work P.ops table.now.table.shared.key) worker.seat.me.0 }
    ensures same { (result.seat.table_id ≡ worker.seat.table_id)
        × (result.seat.me.0.parts ≡ worker.seat.me.0.parts) }
    ensures ends { AtEnds (work P.ops table.now.table.shared.key) result.seat.me.0 }
    ensures all { worker.seat.me.0.parts ≡ table.now.table.shared.key.parts
        → IsFinished (work P.ops table.now.table.shared.key) result.seat.me.0 }
{
    for chunk in 0..table.chunks() {
        worker = with_one(table, worker, chunk);
    }
    worker
}

// Shares the work among as many workers as there are parts, each in a thread of its own where one can be made.
fn share<P: Sweep + Send + Sync, R: Threads + Sync>(
    rt: &R,
    table: &OpTable<P>,
    mut worker: Worker<P>,
    count: u32,
) -> Worker<P>
    requires fits { worker.seat.table_id ≡ table.now.table.shared.table_id }
    requires ready { IsFor P.chunks P.opening table.now.table.shared.key }
    requires empty { worker.seat.me.0.held ≡ [] }
    requires parts { worker.seat.me.0.parts ≡ count }
    ensures same { (result.seat.table_id ≡ worker.seat.table_id) × (result.seat.me.0.parts ≡ count) }
    ensures ends { AtEnds (work P.ops table.now.table.shared.key) result.seat.me.0 }
{
    if count <= 1 {
        return with_free(table, worker);
    }
    let half = count / 2;
    let other = worker.split(table, half);
    let left = count - half;
    let (mut one, two) = join(
        rt,
        move || -> Worker<P>
            requires sync { IsSync R.row }
            requires fits { worker.seat.table_id ≡ table.now.table.shared.table_id }
            requires ready { IsFor P.chunks P.opening table.now.table.shared.key }
            requires empty { worker.seat.me.0.held ≡ [] }
            requires parts { worker.seat.me.0.parts ≡ left }
            ensures same { (result.seat.table_id ≡ table.entry.now.table.shared.table_id)
                × (result.seat.me.0.parts ≡ left) }
            ensures ends { AtEnds (work P.ops table.entry.now.table.shared.key) result.seat.me.0 }
        { share(rt, table, worker, left) },
        move || -> Worker<P>
            requires sync { IsSync R.row }
            requires fits { other.seat.table_id ≡ table.now.table.shared.table_id }
            requires ready { IsFor P.chunks P.opening table.now.table.shared.key }
            requires empty { other.seat.me.0.held ≡ [] }
            requires parts { other.seat.me.0.parts ≡ half }
            ensures same { (result.seat.table_id ≡ table.entry.now.table.shared.table_id)
                × (result.seat.me.0.parts ≡ half) }
            ensures ends { AtEnds (work P.ops table.entry.now.table.shared.key) result.seat.me.0 }
        { share(rt, table, other, half) },
    );
    one.join(table, two);
    one
}

/// The opening words after all operations of all chunks, made by as many workers as there are parts.
pub fn after_all<P: Sweep + Drop + Send + Sync, R: Threads + Sync>(
    rt: &R,
    table: OpTable<P>,
    worker: Worker<P>,
    workers: u32,
) -> Vec<u64>
    requires fits { worker.seat.table_id ≡ table.table.shared.table_id }
    requires ready { IsFor P.chunks P.opening table.table.shared.key }
    requires empty { worker.seat.me.0.held ≡ [] }
    requires parts { (worker.seat.me.0.parts ≡ workers) × (table.table.shared.key.parts ≡ workers) }
    ensures { result.items ≡ acts_all (in_order (P.ops table.table.shared.key.plan) table.table.shared.key.chunks)
        table.table.shared.key.words.items }
{
    let worker = share(rt, &table, worker, workers);
    let worker = with_free(&table, worker);
    table.close(worker)
}
