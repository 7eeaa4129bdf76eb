ghost use Rattle.std.specs.Prelude.{◌≡◌, ℕ, ◌<◌, ◌≤◌, Some, [], length};
ghost use Rattle.std.specs.Io.{ReadsAtMost};
ghost use Rattle.std.specs.Io.KnownBytes.{ReadConsumes};
ghost use Rattle.dt_outside.specs.Faults.{last_count, IsCounted};
ghost use Rattle.dt_outside.specs.InMemory.{Reads};

use crate::copy::copy_front;
use crate::source::{Failed, Source};
use std::marker::Model;

/// A source in memory that tells its bytes, gives them in steps, and fails at stated calls.
#[derive(Debug, Drop)]
pub struct ListSource {
    bytes: Vec<u8>,
    at: usize,
    step: u32,
    failing: Vec<u32>,
    calls: u32,
    faults: u64,
}

impl Model for ListSource {
    ghost use Rattle.std.specs.Prelude.{◌<◌, ◌≤◌, drop, vec_len};
    ghost use Rattle.dt_outside.specs.InMemory as shown;

    ghost Value = { shown.ListSource };

    ghost view = { λ s. record { left = drop s.at s.bytes.items; step = s.step; failing = s.failing.items; calls = s.calls; faults = s.faults } };

    ghost invariant = { λ s. (s.at ≤ vec_len s.bytes) × (0 < s.step) };
}

impl ListSource {
    /// A source of these bytes that gives at most `step` of them a call. Exactly the calls whose places, from 1,
    /// are listed fail. `step` is at least 1.
    pub fn new(bytes: Vec<u8>, step: u32, failing: Vec<u32>) -> ListSource
        requires { 0 < step }
        ensures { result ≡ record { left = bytes.items; step = step; failing = failing.items; calls = 0; faults = 0 } }
    {
        ListSource {
            bytes,
            at: 0,
            step,
            failing,
            calls: 0,
            faults: 0,
        }
    }

    /// How often it was read, those calls too that failed; at most 2^32 - 1, at which it stands still.
    pub fn calls(&self) -> u32
        ensures { result ≡ self.now.calls }
    {
        self.calls
    }
}

impl Source for ListSource {
    ghost left = { λ s. Some s.left };

    ghost faults = { λ s. s.faults };

    fn read(&mut self, room: &mut [u8]) -> Result<usize, Failed>
        requires { 0 < length room.old }
        ensures bound { ReadsAtMost result room.new }
        ensures bytes { ReadConsumes (Some self.old.left) (Some self.new.left) result room.new }
        ensures counted { IsCounted result self.old.faults self.new.faults }
        ensures counts { self.old.faults ≤ self.new.faults }
        ensures in_range { self.new.faults ≤ last_count }
        ensures exactly { Reads self.old (length room.old) result self.new }
    {
        self.calls = self.calls.saturating_add(1);
        if self.failing.contains(&self.calls) {
            self.faults = self.faults.saturating_add(1);
            return Err(Failed);
        }
        let count = copy_front(room, &self.bytes[self.at..], self.step as usize);
        self.at += count;
        Ok(count)
    }
}
