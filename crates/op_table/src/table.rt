ghost use Rattle.std.specs.Prelude.{◌≡◌, ◌≢◌, ◌⊎◌, ℕ, ◌+◌, ◌-◌, ◌<◌, ◌≤◌, ◌^◌, ◌∷◌, ◌++◌, length, [], replicate, IfOk, slice_index, vec_len};
ghost use Rattle.std.specs.Mem.Slots.{slots_items, slots_len, IsFull};
ghost use mathlib.Core.Option.{some};
ghost use lib.ListN.{get_elem?};
ghost use Rattle.ring_core.specs.Ring.{ring_add};
ghost use Rattle.operations.specs.declared.op.Op.TheVariants.{Load, Store, Bump, Add};
ghost use Rattle.operations.specs.Ops.{acts_all};
ghost use Rattle.operations.specs.Order.{in_order};
ghost use Rattle.op_table.specs.Rule.{view, IsSound};
ghost use Rattle.op_table.specs.Plays.{work, view_after, IsNext, cells_alone, IsFinished, IsSwap};

use crate::by_ops::{Aim, ByOps, Gives, Loads, Moves, Swaps};
use crate::plan::{Key, Plan};
use crate::view::View;
use crate::worker::Worker;
use atomic_table::{Closed, Seat, Table};
use fl_base::Memory;
use std::alloc::Global;

/// Cells and claims that several workers step on.
#[derive(Drop)]
pub struct OpTable<P: Plan> {
    pub(crate) table: Table<(), View, Key<P>, ByOps, Global>,
    plan: P,
    words: Vec<u64>,
    chunks: u32,
    ghost sized: { (vec_len words ≡ length table.shared.key.words.items) × (chunks ≡ table.shared.key.chunks)
        × (table.shared.table_id.words ≡ 1 + (vec_len words + chunks)) × (table.shared.table_id.slots ≡ 0)
        × (vec_len words ≤ 2 ^ 32) },
    ghost planned: { plan ≡ table.shared.key.plan },
}

// The draw word, the cells and a claim word for each chunk.
fn words_of(alloc: Global, cells: &[u64], chunks: u32) -> Result<Vec<u64>, Memory>
    requires { length cells.now ≤ 2 ^ 32 }
    ensures { IfOk result (λ v. v.items ≡ 0 ∷ cells.now ++ replicate chunks 0) }
{
    let count = 1 + cells.len() + chunks as usize;
    let mut words = Vec::with_capacity(alloc, count)?;
    words.push(0)?;
    words.extend_from_slice(cells)?;
    words.resize(count, 0)?;
    Ok(words)
}

// The words of the cells.
fn take_cells(cells: &mut Vec<u64>, closed: &Closed<(), Global>)
    requires { IsFull closed.now.words × (vec_len cells.old < slots_len closed.now.words)
        × (slots_len closed.now.words < 2 ^ 62) }
    ensures len { (length cells.new.items ≡ vec_len cells.old) × (vec_len cells.new ≡ vec_len cells.old) }
    ensures each { (p : ℕ) → p < vec_len cells.old
        → get_elem? (slots_items closed.now.words) (1 + p) ≡ some (slice_index cells.new.items p) }
{
    for i in 0..cells.len() {
        cells[i] = closed.word(1 + i);
    }
}

impl<P: Plan + Drop> OpTable<P> {
    /// A table whose cells are `words`, and its first worker, which has all parts and holds no chunk.
    pub fn make(
        alloc: Global,
        plan: P,
        words: Vec<u64>,
        chunks: u32,
        workers: u32,
    ) -> Result<(OpTable<P>, Worker<P>), Memory>
        requires sound { IsSound (P.ops plan) chunks (length words.items) }
        requires some { 0 < workers }
        requires few { vec_len words ≤ 2 ^ 32 }
        ensures table { IfOk result (λ t. (t.0.table.shared.key.plan ≡ plan)
            × (t.0.table.shared.key.words.items ≡ words.items) × (t.0.table.shared.key.chunks ≡ chunks)
            × (t.0.table.shared.key.parts ≡ workers)) }
        ensures worker { IfOk result (λ t. (t.1.seat.table_id ≡ t.0.table.shared.table_id)
            × (t.1.seat.me.0 ≡ view [] [] workers)) }
    {
        let all = words_of(alloc, words.as_slice(), chunks)?;
        let key = Key {
            plan,
            words,
            chunks,
            parts: workers,
        };
        let (table, seat) = Table::of_words(alloc, all.as_slice(), &key)?;
        let Key { plan, words, .. } = key;
        Ok((
            OpTable {
                table,
                plan,
                words,
                chunks,
            },
            Worker::of(seat),
        ))
    }

    /// The opening words after all operations of all chunks.
    pub fn close(self, worker: Worker<P>) -> Vec<u64>
        requires table { worker.seat.table_id ≡ self.table.shared.table_id }
        requires finished { IsFinished (work P.ops self.table.shared.key) worker.seat.me.0 }
        ensures { result.items ≡ acts_all (in_order (P.ops self.table.shared.key.plan) self.table.shared.key.chunks)
            self.table.shared.key.words.items }
    {
        let OpTable {
            table,
            mut words,
            ..
        } = self;
        let Worker { seat, .. } = worker;
        let closed = table.close_with(seat);
        take_cells(&mut words, &closed);
        closed.free();
        words
    }
}

impl<P: Plan> OpTable<P> {
    pub fn plan(&self) -> &P
        ensures { result.now ≡ self.now.table.shared.key.plan }
    {
        &self.plan
    }

    /// The number of chunks.
    pub fn chunks(&self) -> u32
        ensures { result ≡ self.now.table.shared.key.chunks }
    {
        self.chunks
    }

    /// The number of cells.
    pub fn cells(&self) -> usize
        ensures { result ≡ length self.now.table.shared.key.words.items }
    {
        self.words.len()
    }

    pub(crate) fn load_for<J: Aim>(&self, seat: &mut Seat<(), View>, _chunk: u32, cell: u32) -> u64
        requires chunk { J.chunk ≡ _chunk }
        requires table { seat.old.table_id ≡ self.now.table.shared.table_id }
        requires next { IsNext (work P.ops self.now.table.shared.key) J.chunk seat.old.me.0 (Load cell) }
        requires aim { J.number
            ≡ slice_index (cells_alone (work P.ops self.now.table.shared.key) J.chunk seat.old.me.0) cell }
        ensures same { (seat.new.table_id ≡ seat.old.table_id) × (seat.new.id ≡ seat.old.id) }
        ensures after { (seat.new.me ≡ (view_after J.chunk seat.old.me.0, seat.old.me.1)) × (result ≡ J.number) }
    {
        self.table.shared.load::<Loads<J>>(seat, 1 + cell as usize)
    }

    pub(crate) fn store_for<J: Aim>(
        &self,
        seat: &mut Seat<(), View>,
        _chunk: u32,
        cell: u32,
        word: u64,
    )
        requires chunk { J.chunk ≡ _chunk }
        requires table { seat.old.table_id ≡ self.now.table.shared.table_id }
        requires inside { cell < length self.now.table.shared.key.words.items }
        requires next { IsNext (work P.ops self.now.table.shared.key) J.chunk seat.old.me.0 (Store cell word)
            ⊎ ((a : ℕ) × IsNext (work P.ops self.now.table.shared.key) J.chunk seat.old.me.0 (Bump cell a)
            × (word ≡ ring_add (slice_index (cells_alone (work P.ops self.now.table.shared.key) J.chunk seat.old.me.0) cell) a)) }
        ensures same { (seat.new.table_id ≡ seat.old.table_id) × (seat.new.id ≡ seat.old.id) }
        ensures after { seat.new.me ≡ (view_after J.chunk seat.old.me.0, seat.old.me.1) }
    {
        self.table
            .shared
            .store::<Moves<J>>(seat, 1 + cell as usize, word)
    }

    pub(crate) fn add_for<J: Aim>(
        &self,
        seat: &mut Seat<(), View>,
        _chunk: u32,
        cell: u32,
        amount: u64,
    )
        requires chunk { J.chunk ≡ _chunk }
        requires table { seat.old.table_id ≡ self.now.table.shared.table_id }
        requires next { IsNext (work P.ops self.now.table.shared.key) J.chunk seat.old.me.0 (Add cell amount) }
        ensures same { (seat.new.table_id ≡ seat.old.table_id) × (seat.new.id ≡ seat.old.id) }
        ensures after { seat.new.me ≡ (view_after J.chunk seat.old.me.0, seat.old.me.1) }
    {
        let cell = 1 + cell as usize;
        let _found = self.table.shared.fetch_add::<Moves<J>>(seat, cell, amount);
    }

    pub(crate) fn swap_for<J: Aim>(&self, seat: &mut Seat<(), View>, chunk: u32) -> u64
        requires table { seat.old.table_id ≡ self.now.table.shared.table_id }
        requires part { seat.old.me.0.parts ≢ 0 }
        requires chunk { chunk < self.now.table.shared.key.chunks }
        requires aim { (J.chunk ≡ chunk) × (J.number ≡ self.now.table.shared.key.parts) }
        ensures same { (seat.new.table_id ≡ seat.old.table_id) × (seat.new.id ≡ seat.old.id) }
        ensures swapped { IsSwap J.chunk J.number seat.old.me result seat.new.me }
    {
        let word = 1 + self.words.len() + chunk as usize;
        self.table.shared.swap::<Swaps<J>>(seat, word, 1)
    }

    pub(crate) fn give_for<J: Aim>(&self, seat: &mut Seat<(), View>, _parts: u32) -> Seat<(), View>
        requires aim { J.number ≡ _parts }
        requires table { seat.old.table_id ≡ self.now.table.shared.table_id }
        requires empty { seat.old.me.0.held ≡ [] }
        requires few { J.number < seat.old.me.0.parts }
        ensures same { (seat.new.table_id ≡ seat.old.table_id)
            × (seat.new.me ≡ (view [] seat.old.me.0.found (seat.old.me.0.parts - J.number), seat.old.me.1)) }
        ensures given { (result.table_id ≡ seat.old.table_id) × (result.me ≡ (view [] [] J.number, [])) }
    {
        self.table.shared.split_seat::<Gives<J>>(seat)
    }
}
