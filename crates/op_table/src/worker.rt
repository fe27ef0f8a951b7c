ghost use Rattle.std.specs.Prelude.{◌≡◌, ◌≢◌, ◌⊎◌, ℕ, ◌-◌, ◌<◌, ◌∷◌, length, [], true, false, slice_index};
ghost use Rattle.ring_core.specs.Ring.{ring_add};
ghost use Rattle.operations.specs.declared.op.Op.TheVariants.{Load, Store, Bump, Add};
ghost use Rattle.op_table.specs.Rule.{view, lists};
ghost use Rattle.op_table.specs.Plays.{work, view_after, IsNext, cells_alone, join_of};

use crate::by_ops::{Both, Draws};
use crate::plan::Plan;
use crate::table::OpTable;
use crate::view::View;
use atomic_table::Seat;
use std::marker::{Brand, PhantomData};

/// A seat at a table: the chunks that a thread holds, those that it found claimed, and its parts. It has no bytes.
#[derive(Drop)]
pub struct Worker<P> {
    pub(crate) seat: Seat<(), View>,
    marker: PhantomData<P>,
    ghost part: { seat.me.0.parts ≢ 0 },
    ghost no_slot: { seat.me.1 ≡ [] },
}

impl<P> Worker<P> {
    pub(crate) fn of(seat: Seat<(), View>) -> Worker<P>
        requires part { seat.me.0.parts ≢ 0 }
        requires no_slot { seat.me.1 ≡ [] }
        ensures { result.seat ≡ seat }
    {
        Worker {
            seat,
            marker: PhantomData,
        }
    }
}

impl<P: Plan> Worker<P> {
    pub(crate) fn load(&mut self, table: &OpTable<P>, chunk: u32, cell: u32) -> u64
        requires table { self.old.seat.table_id ≡ table.now.table.shared.table_id }
        requires next { IsNext (work P.ops table.now.table.shared.key) chunk self.old.seat.me.0 (Load cell) }
        ensures same { (self.new.seat.table_id ≡ self.old.seat.table_id)
            × (self.new.seat.me.0 ≡ view_after chunk self.old.seat.me.0) }
        ensures value { result
            ≡ slice_index (cells_alone (work P.ops table.now.table.shared.key) chunk self.old.seat.me.0) cell }
    {
        table.load_for::<Brand>(&mut self.seat, chunk, cell)
    }

    pub(crate) fn store(&mut self, table: &OpTable<P>, chunk: u32, cell: u32, word: u64)
        requires table { self.old.seat.table_id ≡ table.now.table.shared.table_id }
        requires inside { cell < length table.now.table.shared.key.words.items }
        requires next { IsNext (work P.ops table.now.table.shared.key) chunk self.old.seat.me.0 (Store cell word)
            ⊎ ((a : ℕ) × IsNext (work P.ops table.now.table.shared.key) chunk self.old.seat.me.0 (Bump cell a)
            × (word ≡ ring_add (slice_index (cells_alone (work P.ops table.now.table.shared.key) chunk self.old.seat.me.0) cell) a)) }
        ensures same { (self.new.seat.table_id ≡ self.old.seat.table_id)
            × (self.new.seat.me.0 ≡ view_after chunk self.old.seat.me.0) }
    {
        table.store_for::<Brand>(&mut self.seat, chunk, cell, word)
    }

    pub(crate) fn add(&mut self, table: &OpTable<P>, chunk: u32, cell: u32, amount: u64)
        requires table { self.old.seat.table_id ≡ table.now.table.shared.table_id }
        requires next { IsNext (work P.ops table.now.table.shared.key) chunk self.old.seat.me.0 (Add cell amount) }
        ensures same { (self.new.seat.table_id ≡ self.old.seat.table_id)
            × (self.new.seat.me.0 ≡ view_after chunk self.old.seat.me.0) }
    {
        table.add_for::<Brand>(&mut self.seat, chunk, cell, amount)
    }

    /// Gives some of its parts to a new worker.
    pub fn split(&mut self, table: &OpTable<P>, parts: u32) -> Worker<P>
        requires table { self.old.seat.table_id ≡ table.now.table.shared.table_id }
        requires empty { self.old.seat.me.0.held ≡ [] }
        requires parts { (0 < parts) × (parts < self.old.seat.me.0.parts) }
        ensures same { (self.new.seat.table_id ≡ self.old.seat.table_id)
            × (self.new.seat.me.0 ≡ view [] self.old.seat.me.0.found (self.old.seat.me.0.parts - parts)) }
        ensures new { (result.seat.table_id ≡ self.old.seat.table_id) × (result.seat.me.0 ≡ view [] [] parts) }
    {
        let seat = table.give_for::<Brand>(&mut self.seat, parts);
        Worker::of(seat)
    }

    /// Takes the chunks, the found chunks and the parts of another worker.
    pub fn join(&mut self, table: &OpTable<P>, other: Worker<P>)
        requires table { self.old.seat.table_id ≡ table.now.table.shared.table_id }
        requires other { other.seat.table_id ≡ table.now.table.shared.table_id }
        ensures { (self.new.seat.table_id ≡ self.old.seat.table_id)
            × (self.new.seat.me.0 ≡ join_of self.old.seat.me.0 other.seat.me.0) }
    {
        let Worker { seat, .. } = other;
        table.table.shared.join_seat::<Both>(&mut self.seat, seat);
    }

    /// Adds 1 to the draw word, and answers the old word, of which nothing is known.
    pub fn draw(&mut self, table: &OpTable<P>) -> u64
        requires table { self.old.seat.table_id ≡ table.now.table.shared.table_id }
        ensures { (self.new.seat.table_id ≡ self.old.seat.table_id) × (self.new.seat.me.0 ≡ self.old.seat.me.0) }
    {
        table.table.shared.fetch_add::<Draws>(&mut self.seat, 0, 1)
    }

    /// Swaps 1 into the claim word of a chunk. It is true where the worker now holds the chunk, at its start.
    pub fn claim(&mut self, table: &OpTable<P>, chunk: u32) -> bool
        requires table { self.old.seat.table_id ≡ table.now.table.shared.table_id }
        requires chunk { chunk < table.now.table.shared.key.chunks }
        ensures same { self.new.seat.table_id ≡ self.old.seat.table_id }
        ensures claimed { result ≡ true
            → self.new.seat.me.0 ≡ view ((chunk, 0) ∷ self.old.seat.me.0.held) self.old.seat.me.0.found self.old.seat.me.0.parts }
        ensures found { result ≡ false
            → self.new.seat.me.0 ≡ view self.old.seat.me.0.held (chunk ∷ self.old.seat.me.0.found) self.old.seat.me.0.parts }
        ensures mine { result ≡ false → self.old.seat.me.0.parts ≡ table.now.table.shared.key.parts
            → lists chunk self.old.seat.me.0.held ≡ true }
    {
        table.swap_for::<Brand>(&mut self.seat, chunk) == 0
    }
}
