ghost use Rattle.std.specs.Prelude.{◌≡◌, ℕ, ◌<◌, ◌≤◌, Some, [], length, IfOk};
ghost use Rattle.std.specs.Io.{WritesAtMost};
ghost use Rattle.std.specs.Io.KnownBytes.{WriteAppends};
ghost use Rattle.dt_outside.specs.Faults.{last_count, IsCounted};
ghost use Rattle.dt_outside.specs.InMemory.{Puts};

use crate::sink::Sink;
use crate::source::Failed;
use dt_graph::NoMemory;
use std::alloc::Global;
use std::marker::Model;

/// A sink in memory that tells what it took, takes it in steps, and fails at stated calls.
#[derive(Debug, Drop)]
pub struct ListSink {
    bytes: Vec<u8>,
    step: u32,
    room: u32,
    failing: Vec<u32>,
    calls: u32,
    faults: u64,
}

impl Model for ListSink {
    ghost use Rattle.std.specs.Prelude.{◌<◌, ◌≤◌, vec_len, vec_capacity};
    ghost use Rattle.dt_outside.specs.InMemory as shown;

    ghost Value = { shown.ListSink };

    ghost view = { λ s. record { taken = s.bytes.items; step = s.step; room = s.room; failing = s.failing.items; calls = s.calls; faults = s.faults } };

    ghost invariant = { λ s. (vec_len s.bytes ≤ s.room) × (s.room ≤ vec_capacity s.bytes) × (0 < s.step) };
}

impl ListSink {
    /// A sink that takes at most `step` bytes a call and `room` bytes in all. A call fails exactly where its place,
    /// from 1, is listed or `room` bytes are taken already. `step` is at least 1. All memory of the
    /// sink is taken here.
    ///
    /// # Errors
    ///
    /// [`NoMemory`] where no memory was found.
    pub fn new(alloc: Global, step: u32, room: u32, failing: Vec<u32>) -> Result<ListSink, NoMemory>
        requires { 0 < step }
        ensures { IfOk result (λ s. s ≡ record { taken = []; step = step; room = room; failing = failing.items; calls = 0; faults = 0 }) }
    {
        let bytes = Vec::with_capacity(alloc, room as usize)?;
        Ok(ListSink {
            bytes,
            step,
            room,
            failing,
            calls: 0,
            faults: 0,
        })
    }

    /// What was taken.
    pub fn bytes(&self) -> &[u8]
        ensures { ⟦<ListSink as Sink>⟧.taken self.now ≡ Some result.now }
    {
        &self.bytes
    }

    /// How often bytes were put, those calls too that failed; at most 2^32 - 1, at which it stands still.
    pub fn calls(&self) -> u32
        ensures { result ≡ self.now.calls }
    {
        self.calls
    }
}

impl Sink for ListSink {
    ghost taken = { λ s. Some s.taken };

    ghost faults = { λ s. s.faults };

    fn put(&mut self, piece: &[u8]) -> Result<usize, Failed>
        requires { 0 < length piece.now }
        ensures bound { WritesAtMost result piece.now }
        ensures some { IfOk result (λ count. 0 < count) }
        ensures bytes { WriteAppends (Some self.old.taken) (Some self.new.taken) result piece.now }
        ensures counted { IsCounted result self.old.faults self.new.faults }
        ensures counts { self.old.faults ≤ self.new.faults }
        ensures in_range { self.new.faults ≤ last_count }
        ensures exactly { Puts self.old piece.now result self.new }
    {
        self.calls = self.calls.saturating_add(1);
        let free = self.room as usize - self.bytes.len();
        if free == 0 || self.failing.contains(&self.calls) {
            self.faults = self.faults.saturating_add(1);
            return Err(Failed);
        }
        let count = piece.len().min(self.step as usize).min(free);
        self.bytes.extend_from_slice(&piece[..count]).unwrap();
        Ok(count)
    }
}
