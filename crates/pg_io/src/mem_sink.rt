ghost use Rattle.std.specs.Prelude.{◌≡◌, ◌<◌, ◌≤◌, ◌↔◌, IsErr, IsTrue, IfOk, OnErr, [], Some, length};
ghost use Rattle.pg_bytes.specs.Counts.{Rose};
ghost use Rattle.pg_io.specs.InMemory.{SinkNow, next_fails, taken, after_write};

use crate::NoMemory;
use crate::calls::Calls;
use crate::sink::{Failed, Sink};
use std::alloc::Global;
use std::marker::Model;

/// A sink in memory with room for so many bytes, of which it takes so many at a time, and the numbers of the writes
/// that are to fail.
#[derive(Drop)]
pub struct MemSink {
    bytes: Vec<u8>,
    room: usize,
    most: usize,
    calls: Calls,
    faults: u64,
}

impl Model for MemSink {
    ghost use Rattle.std.specs.Prelude.{◌+◌, ◌<◌, ◌≤◌, vec_len, vec_capacity};
    ghost use Rattle.pg_io.specs.InMemory.{SinkNow};

    ghost Value = { SinkNow };

    ghost view = { λ sink. record {
      written = sink.bytes.items;
      room = sink.room;
      most = sink.most;
      made = sink.calls.made;
      fails = sink.calls.fails.items;
      faults = sink.faults;
    } };

    ghost invariant = { λ sink. (vec_len sink.bytes + sink.room ≤ vec_capacity sink.bytes) × (0 < sink.most) };
}

impl MemSink {
    /// An empty sink that takes `room` bytes, and at most `most` of a piece. All its memory is taken here. The
    /// writes whose numbers stand in `fails` are to fail: the first write is number 1.
    pub fn open(
        alloc: Global,
        room: usize,
        most: usize,
        fails: Vec<u64>,
    ) -> Result<MemSink, NoMemory>
        requires { 0 < most }
        ensures { IfOk result (λ sink. sink ≡ record {
          written = [];
          room = room;
          most = most;
          made = 0;
          fails = fails.items;
          faults = 0;
        }) }
    {
        let bytes = Vec::with_capacity(alloc, room)?;
        Ok(MemSink {
            bytes,
            room,
            most,
            calls: Calls::new(fails),
            faults: 0,
        })
    }

    /// The bytes that went out so far.
    pub fn bytes(&self) -> &[u8]
        ensures { result.now ≡ self.now.written }
    {
        &self.bytes
    }
}

impl Sink for MemSink {
    ghost written = { λ sink. Some sink.written };

    ghost faults = { λ sink. sink.faults };

    /// Takes the first bytes of the piece, as many as it takes at a time and has room for, unless this write is to
    /// fail. No room for any byte of a piece is a fault too, with the answer 0.
    fn write(&mut self, bytes: &[u8]) -> Result<usize, Failed>
        ensures fails { IsErr result ↔ IsTrue (next_fails self.old) }
        ensures takes { IfOk result (λ n. n ≡ taken self.old bytes.now) }
        ensures after { self.new ≡ after_write self.old bytes.now }
        ensures later { self.old.faults ≤ self.new.faults }
        ensures failed { OnErr result (Rose self.old.faults self.new.faults) }
        ensures nothing { result ≡ Ok 0 → 0 < length bytes.now →
            Rose self.old.faults self.new.faults }
        ensures sound { IfOk result (λ n. 0 < n → self.new.faults ≡ self.old.faults) }
    {
        let fails = self.calls.next_fails();
        self.calls.count();
        if fails {
            self.faults = self.faults.saturating_add(1);
            return Err(Failed);
        }
        let count = bytes.len().min(self.most).min(self.room);
        if count == 0 && !bytes.is_empty() {
            self.faults = self.faults.saturating_add(1);
        }
        self.bytes.extend_from_slice(&bytes[..count]).unwrap();
        self.room -= count;
        Ok(count)
    }
}
