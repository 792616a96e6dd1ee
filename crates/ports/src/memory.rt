//! A source and a sink in memory, with calls that fail at numbers of choice.
ghost use Rattle.std.specs.Prelude.{◌≡◌, ◌≤◌, ◌<◌, ◌+◌, Some, vec_capacity, IsErr, IfOk, ◌↔◌, Contains, ◌⊎◌};
ghost use Rattle.std.specs.Prelude.{length};
ghost use Rattle.ports.specs.Streams.{Alone, Takes, Puts, HasCause, RisesOnce};
ghost use Rattle.ports.specs.Memory.{counted, CountsFault, KeepsPlan, KeepsRoom};

use crate::{Calls, Failed, Sink, Source};
use std::marker::Model;

/// A source in memory, which tells what is left.
#[derive(Drop)]
pub struct MemSource {
    bytes: Vec<u8>,
    at: usize,
    chunk: usize,
    calls: Calls,
    faults: u128,
}

impl Model for MemSource {
    ghost use Rattle.std.specs.Prelude.{◌≤◌, ◌<◌, length, drop};
    ghost use Rattle.ports.specs.Memory.{SourceState};

    ghost Value = { SourceState };

    ghost view = { λ s. record {
      left = drop s.at s.bytes.items;
      chunk = s.chunk;
      fail = s.calls.fail;
      calls = s.calls.made;
      faults = s.faults;
    } };

    ghost invariant = { λ s. (s.at ≤ length s.bytes.items) × (0 < s.chunk) };
}

impl MemSource {
    /// A source of these bytes. A call gives at most `chunk` of them, and exactly the calls whose
    /// numbers, counted from 1, are in `fail` answer `Failed`.
    pub fn new(bytes: Vec<u8>, chunk: usize, fail: Vec<u64>) -> MemSource
        requires { 0 < chunk }
        ensures { result ≡ record {
          left = bytes.items;
          chunk = chunk;
          fail = fail.items;
          calls = 0;
          faults = 0;
        } }
    {
        MemSource {
            bytes,
            at: 0,
            chunk,
            calls: Calls::new(fail),
            faults: 0,
        }
    }
}

impl Source for MemSource {
    ghost left = { λ s. Some s.left };

    ghost faults = { λ s. s.faults };

    ghost aside = { λ _. Alone };

    fn take(&mut self, buf: &mut [u8]) -> Result<usize, Failed>
        ensures bytes { Takes (Some self.old.left) (Some self.new.left) buf.old buf.new result }
        ensures cause { HasCause self.old.faults self.new.faults result }
        ensures once { RisesOnce self.old.faults self.new.faults result }
        ensures failed { IsErr result ↔ Contains self.old.fail (counted self.old.calls) }
        ensures chunk { IfOk result (λ count. count ≤ self.old.chunk) }
        ensures counts { CountsFault self.old.faults self.new.faults result }
        ensures stays { KeepsPlan self.old self.new }
    {
        if self.calls.next_fails() {
            self.faults = self.faults.saturating_add(1);
            return Err(Failed);
        }
        let rest = &self.bytes[self.at..];
        let count = self.chunk.min(buf.len()).min(rest.len());
        buf[..count].copy_from_slice(&rest[..count]);
        self.at += count;
        Ok(count)
    }
}

/// A sink in memory, which tells what it holds.
#[derive(Drop)]
pub struct MemSink {
    bytes: Vec<u8>,
    room: usize,
    calls: Calls,
    faults: u128,
}

impl Model for MemSink {
    ghost use Rattle.std.specs.Prelude.{◌≤◌};
    ghost use Rattle.std.specs.Prelude.{vec_capacity};
    ghost use Rattle.ports.specs.Memory.{SinkState};

    ghost Value = { SinkState };

    ghost view = { λ s. record {
      held = s.bytes.items;
      room = s.room;
      fail = s.calls.fail;
      calls = s.calls.made;
      faults = s.faults;
    } };

    ghost invariant = { λ s. s.room ≤ vec_capacity s.bytes };
}

impl MemSink {
    /// A sink that begins with these bytes and may hold `room` of them in all. A put fails exactly
    /// where its number, counted from 1, is in `fail` or it does not fit.
    pub fn new(bytes: Vec<u8>, room: usize, fail: Vec<u64>) -> MemSink
        requires { room ≤ vec_capacity bytes }
        ensures { result ≡ record {
          held = bytes.items;
          room = room;
          fail = fail.items;
          calls = 0;
          faults = 0;
        } }
    {
        MemSink {
            bytes,
            room,
            calls: Calls::new(fail),
            faults: 0,
        }
    }

    /// The bytes that it holds.
    pub fn bytes(&self) -> &[u8]
        ensures { result.now ≡ self.now.held }
    {
        self.bytes.as_slice()
    }
}

impl Sink for MemSink {
    ghost held = { λ s. Some s.held };

    ghost faults = { λ s. s.faults };

    ghost aside = { λ _. Alone };

    fn put(&mut self, piece: &[u8]) -> Result<(), Failed>
        ensures bytes { Puts (Some self.old.held) (Some self.new.held) piece.now result }
        ensures cause { HasCause self.old.faults self.new.faults result }
        ensures failed { IsErr result
            ↔ (Contains self.old.fail (counted self.old.calls)
            ⊎ (self.old.room < length self.old.held + length piece.now)) }
        ensures counts { CountsFault self.old.faults self.new.faults result }
        ensures stays { KeepsRoom self.old self.new }
    {
        if self.calls.next_fails()
            || self.room < self.bytes.len()
            || self.room - self.bytes.len() < piece.len()
        {
            self.faults = self.faults.saturating_add(1);
            return Err(Failed);
        }
        match self.bytes.extend_from_slice(piece) {
            Ok(()) => Ok(()),
            Err(_) => {
                self.faults = self.faults.saturating_add(1);
                Err(Failed)
            }
        }
    }
}
