ghost use Rattle.std.specs.Prelude.{◌≡◌, ◌⊎◌, ◌↔◌, ◌+◌, ◌-◌, ◌<◌, ◌≤◌, ◌++◌, ℕ, [], Some, IfOk, IfSome, IsErr, OnOk, OnErr, MatchResult, Contains, length, take};
ghost use Rattle.outside.specs.Causes.{HasCause};
ghost use Rattle.outside.specs.Calls.{next};
ghost use Rattle.outside.specs.MemTaken.{MemTaken};

use crate::mem_folder::count;
use crate::sink::{Failed, Sink};
use fl_base::Memory;
use std::alloc::Global;
use std::marker::Model;

/// A sink in memory, with room for so many bytes and calls that are to fail.
#[derive(Drop)]
pub struct MemSink {
    bytes: Vec<u8>,
    room: usize,
    fails: Vec<u64>,
    calls: u64,
    faults: u64,
}

impl Model for MemSink {
    ghost use Rattle.std.specs.Prelude.{◌≤◌, length};
    ghost use Rattle.std.specs.Vec.{vec_capacity};
    ghost use Rattle.outside.specs.MemTaken.{MemTaken};

    ghost Value = { MemTaken };

    ghost view = { λ s. record { taken = s.bytes.items; room = s.room; fails = s.fails.items; calls = s.calls; faults = s.faults } };

    ghost invariant = { λ s. s.room ≤ vec_capacity s.bytes };
}

impl MemSink {
    /// An empty sink with memory for `room` bytes. Two kinds of put fail, and take nothing: one whose number is among
    /// `fails`, counted from 1, and one whose piece is longer than the room that is left.
    pub fn new(alloc: Global, fails: Vec<u64>, room: usize) -> Result<MemSink, Memory>
        ensures { IfOk result (λ sink. sink ≡ record { taken = []; room = room; fails = fails.items; calls = 0; faults = 0 }) }
    {
        let bytes = Vec::with_capacity(alloc, room)?;
        Ok(MemSink {
            bytes,
            room,
            fails,
            calls: 0,
            faults: 0,
        })
    }

    pub fn taken(&self) -> &[u8]
        ensures { result.now ≡ self.now.taken }
    {
        self.bytes.as_slice()
    }
}

impl Sink for MemSink {
    ghost state = { λ sink. record { taken = Some sink.taken; faults = sink.faults } };

    fn put(&mut self, piece: &[u8]) -> Result<(), Failed>
        ensures told { MatchResult result
            (λ _. Some self.new.taken ≡ Some (self.old.taken ++ piece.now))
            (λ _. (count : ℕ) × (Some self.new.taken ≡ Some (self.old.taken ++ take count piece.now))) }
        ensures cause { HasCause self.old.faults self.new.faults (IsErr result) }
        // Exactly two kinds of put fail, and they take nothing.
        ensures fails { IsErr result ↔ (Contains self.old.fails (self.old.calls + 1) ⊎ (self.old.room - length self.old.taken < length piece.now)) }
        ensures nothing { OnErr result (self.new.taken ≡ self.old.taken) }
        ensures counted { self.new.calls ≡ next self.old.calls }
        ensures kept { (self.new.room ≡ self.old.room) × (self.new.fails ≡ self.old.fails) }
    {
        let fails = count(&mut self.calls, &self.fails);
        let left = self.room.saturating_sub(self.bytes.len());
        if fails || piece.len() > left || self.bytes.extend_from_slice(piece).is_err() {
            self.faults = self.faults.saturating_add(1);
            return Err(Failed);
        }
        Ok(())
    }
}
