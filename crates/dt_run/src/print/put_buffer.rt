ghost use Rattle.std.specs.Prelude.{◌≡◌, ◌+◌, ◌-◌, ◌≤◌, ◌++◌, [], length, OnOk};
ghost use Rattle.dt_run.specs.Putting.{Puts};

use dt_outside::{Failed, Sink, put_all};
use std::marker::Model;

// How many bytes are put at a time.
pub(crate) const ROOM: usize = 16_384;

// Bytes that are held back until there are many, so that a sink isn't called for each word. What is held is put by
// `flush` alone, and where a further text has no room.
#[derive(Drop)]
pub(crate) struct PutBuffer {
    bytes: [u8; ROOM],
    len: usize,
}

impl Model for PutBuffer {
    ghost use Rattle.std.specs.Prelude.{◌≤◌, List, ℕ, take};
    ghost use Rattle.dt_run.specs.declared.print.put_buffer.TheConstants.{ROOM};

    ghost Value = { List ℕ };

    ghost view = { λ b. take b.len b.bytes };

    ghost invariant = { λ b. b.len ≤ ROOM };
}

impl PutBuffer {
    // Nothing is held.
    pub(crate) fn new() -> PutBuffer
        ensures { result ≡ [] }
    {
        PutBuffer {
            bytes: [0; ROOM],
            len: 0,
        }
    }

    // How many bytes more can be held.
    fn room(&self) -> usize
        ensures { length self.now + result ≡ ROOM }
    {
        ROOM - self.len
    }

    // Holds bytes for which there is room.
    fn hold(&mut self, bytes: &[u8])
        requires { length self.old + length bytes.now ≤ ROOM }
        ensures { self.new ≡ self.old ++ bytes.now }
    {
        let end = self.len + bytes.len();
        self.bytes[self.len..end].copy_from_slice(bytes);
        self.len = end;
    }

    // Puts what is held. Where the sink failed, nothing more is to be put.
    pub(crate) fn flush<K: Sink>(&mut self, sink: &mut K) -> Result<(), Failed>
        ensures put { Puts K.taken K.faults result sink.old self.old sink.new self.new [] }
        ensures empty { OnOk result (self.new ≡ []) }
    {
        put_all(sink, &self.bytes[..self.len])?;
        self.len = 0;
        Ok(())
    }

    // Puts bytes, or holds them, where nothing is held yet.
    fn put_first<K: Sink>(&mut self, sink: &mut K, bytes: &[u8]) -> Result<(), Failed>
        requires { self.old ≡ [] }
        ensures { Puts K.taken K.faults result sink.old self.old sink.new self.new bytes.now }
    {
        if bytes.len() > ROOM {
            return put_all(sink, bytes);
        }
        self.hold(bytes);
        Ok(())
    }

    // Puts bytes, or holds them. Where the sink failed, nothing more is to be put.
    pub(crate) fn put<K: Sink>(&mut self, sink: &mut K, bytes: &[u8]) -> Result<(), Failed>
        ensures { Puts K.taken K.faults result sink.old self.old sink.new self.new bytes.now }
    {
        let room = self.room();
        if bytes.len() <= room {
            self.hold(bytes);
            return Ok(());
        }
        self.flush(sink)?;
        self.put_first(sink, bytes)
    }
}
