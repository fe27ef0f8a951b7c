ghost use Rattle.std.specs.Prelude.{◌≡◌, ℕ, List, Some, drop, true};
ghost use Rattle.atomic_table.specs.Seated.{TableId};
ghost use Rattle.op_table.specs.Rule.{lists, position_of, Work};
ghost use Rattle.op_table.specs.Plays.{work, cells_alone};
ghost use Rattle.op_table.specs.Seats.{rewound};

use crate::plan::Plan;
use crate::table::OpTable;
use crate::worker::Worker;
use operations::Cells;

/// The cells of a table as one chunk sees them: those after the chunk's operations so far, the chunk run alone. The rest of
/// the chunk's operations is due, and each call is one atomic step.
pub struct SeatCells<'a, P: Plan> {
    worker: Worker<P>,
    table: &'a OpTable<P>,
    chunk: u32,
    ghost fits: { worker.seat.table_id ≡ table.now.table.shared.table_id },
    ghost listed: { lists chunk worker.seat.me.0.held ≡ true },
}

impl<'a, P: Plan> SeatCells<'a, P> {
    pub fn of(worker: Worker<P>, table: &'a OpTable<P>, chunk: u32) -> SeatCells<'a, P>
        requires fits { worker.seat.table_id ≡ table.now.table.shared.table_id }
        requires listed { lists chunk worker.seat.me.0.held ≡ true }
        ensures { (result.worker ≡ worker) × (result.table.now ≡ table.now) × (result.chunk ≡ chunk) }
    {
        SeatCells {
            worker,
            table,
            chunk,
        }
    }

    pub fn into_worker(self) -> Worker<P>
        ensures { result ≡ self.entry.worker }
    {
        let SeatCells {
            worker,
            table: _,
            chunk: _,
        } = self;
        worker
    }
}

impl<'a, P: Plan> Cells for SeatCells<'a, P> {
    ghost cells = { λ s. cells_alone (work P.ops s.table.now.table.shared.key) s.chunk s.worker.seat.me.0 };

    ghost due = { λ s. Some (drop (position_of s.chunk s.worker.seat.me.0.held)
        (P.ops s.table.now.table.shared.key.plan s.chunk)) };

    ghost Home = { TableId × ℕ × List (ℕ × ℕ) × List ℕ × ℕ × Work };

    ghost home = { λ s. (
      s.worker.seat.table_id,
      s.chunk,
      rewound s.chunk s.worker.seat.me.0.held,
      s.worker.seat.me.0.found,
      s.worker.seat.me.0.parts,
      work P.ops s.table.now.table.shared.key,
    ) };

    fn load(&mut self, p: u32) -> u64 {
        self.worker.load(self.table, self.chunk, p)
    }

    fn store(&mut self, p: u32, word: u64) {
        self.worker.store(self.table, self.chunk, p, word);
    }

    fn add(&mut self, p: u32, amount: u64) {
        self.worker.add(self.table, self.chunk, p, amount);
    }
}
