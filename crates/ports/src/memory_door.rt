//! A connection in memory, and a door of such, with calls that fail at numbers of choice.
ghost use Rattle.std.specs.Prelude.{◌≡◌, ◌≤◌, ◌<◌, ◌+◌, [], Some, None, IsErr, IfOk, ◌↔◌, ◌⊎◌, Contains};
ghost use Rattle.std.specs.Prelude.{length, refl};
ghost use Rattle.ports.specs.Streams.{Beside, Takes, Puts, HasCause, RisesOnce};
ghost use Rattle.ports.specs.Memory.{counted, CountsFault, KeepsPlan, KeepsRoom};
ghost use Rattle.ports.specs.Doors.{HandsOut, with_finished, CountsCall, CountsNone};

use crate::{Calls, Door, Failed, MemSink, MemSource, Sink, Source, Wire};
use std::marker::Model;

/// A connection in memory: what comes from the other side, and what was written to it.
#[derive(Drop)]
pub struct MemEnd {
    /// What comes from the other side.
    pub source: MemSource,
    /// What was written.
    pub sink: MemSink,
}

impl Source for MemEnd {
    ghost left = { λ s. Some s.source.left };

    ghost faults = { λ s. s.source.faults };

    ghost aside = { λ s. Beside s.sink.faults (Some s.sink.held) };

    fn take(&mut self, buf: &mut [u8]) -> Result<usize, Failed>
        ensures bytes { Takes (Some self.old.source.left) (Some self.new.source.left) buf.old buf.new result }
        ensures cause { HasCause self.old.source.faults self.new.source.faults result }
        ensures once { RisesOnce self.old.source.faults self.new.source.faults result }
        ensures sink { self.new.sink ≡ self.old.sink }
        ensures chunk { IfOk result (λ count. count ≤ self.old.source.chunk) }
        ensures failed { IsErr result ↔ Contains self.old.source.fail (counted self.old.source.calls) }
        ensures counts { CountsFault self.old.source.faults self.new.source.faults result }
        ensures stays { KeepsPlan self.old.source self.new.source }
    {
        self.source.take(buf)
    }
}

impl Sink for MemEnd {
    ghost held = { λ s. Some s.sink.held };

    ghost faults = { λ s. s.sink.faults };

    ghost aside = { λ s. Beside s.source.faults (Some s.source.left) };

    fn put(&mut self, piece: &[u8]) -> Result<(), Failed>
        ensures bytes { Puts (Some self.old.sink.held) (Some self.new.sink.held) piece.now result }
        ensures cause { HasCause self.old.sink.faults self.new.sink.faults result }
        ensures source { self.new.source ≡ self.old.source }
        ensures failed { IsErr result ↔ (Contains self.old.sink.fail (counted self.old.sink.calls)
            ⊎ (self.old.sink.room < length self.old.sink.held + length piece.now)) }
        ensures counts { CountsFault self.old.sink.faults self.new.sink.faults result }
        ensures stays { KeepsRoom self.old.sink self.new.sink }
    {
        self.sink.put(piece)
    }
}

impl Wire for MemEnd {
    ghost beside_source = { λ _. refl };

    ghost beside_sink = { λ _. refl };
}

/// A door in memory, which tells its ends. `ends` has the finished ones first and then those still to
/// come.
#[derive(Drop)]
pub struct MemDoor {
    ends: Vec<MemEnd>,
    done: usize,
    out: usize,
    port: Option<u16>,
    calls: Calls,
    faults: u128,
}

impl Model for MemDoor {
    ghost use Rattle.std.specs.Prelude.{◌≤◌, ◌+◌, length, take, drop, vec_capacity};
    ghost use Rattle.ports.specs.Doors.{DoorState};
    ghost use Rattle.ports.specs.declared.memory_door.MemEnd.{MemEnd};

    ghost Value = { DoorState MemEnd };

    ghost view = { λ s. record {
      ends = record { coming = drop s.done s.ends.items; out = s.out; finished = take s.done s.ends.items };
      port = s.port;
      fail = s.calls.fail;
      calls = s.calls.made;
      faults = s.faults;
    } };

    ghost invariant = { λ s. (s.done ≤ length s.ends.items)
        × (length s.ends.items + s.out ≤ vec_capacity s.ends) };
}

impl MemDoor {
    /// A door with these ends still to come. Exactly the calls of `listen` and `next` whose numbers,
    /// counted together from 1, are in `fail` answer `Failed`. The finished ends take the room of
    /// those that went out.
    pub fn new(ends: Vec<MemEnd>, fail: Vec<u64>) -> MemDoor
        ensures { result ≡ record {
          ends = record { coming = ends.items; out = 0; finished = [] };
          port = None;
          fail = fail.items;
          calls = 0;
          faults = 0;
        } }
    {
        MemDoor {
            ends,
            done: 0,
            out: 0,
            port: None,
            calls: Calls::new(fail),
            faults: 0,
        }
    }

    /// The finished ends, in the order in which they were finished.
    pub fn finished(&self) -> &[MemEnd]
        ensures { result.now ≡ self.now.ends.finished }
    {
        &self.ends[..self.done]
    }
}

impl Door for MemDoor {
    type End = MemEnd;

    ghost door_port = { λ s. s.port };

    ghost ends = { λ s. Some s.ends };

    ghost door_faults = { λ s. s.faults };

    fn listen(&mut self, port: u16) -> Result<(), Failed>
        ensures port { self.new.port ≡ Some port }
        ensures ends { self.new.ends ≡ self.old.ends }
        ensures cause { HasCause self.old.faults self.new.faults result }
        ensures failed { IsErr result ↔ Contains self.old.fail (counted self.old.calls) }
        ensures counts { CountsFault self.old.faults self.new.faults result }
        ensures call { CountsCall self.old self.new }
    {
        self.port = Some(port);
        if self.calls.next_fails() {
            self.faults = self.faults.saturating_add(1);
            return Err(Failed);
        }
        Ok(())
    }

    fn next(&mut self) -> Result<Option<MemEnd>, Failed>
        ensures port { self.new.port ≡ self.old.port }
        ensures ends { HandsOut (Some self.old.ends) (Some self.new.ends) result }
        ensures cause { HasCause self.old.faults self.new.faults result }
        ensures failed { IsErr result ↔ Contains self.old.fail (counted self.old.calls) }
        ensures counts { CountsFault self.old.faults self.new.faults result }
        ensures call { CountsCall self.old self.new }
    {
        if self.calls.next_fails() {
            self.faults = self.faults.saturating_add(1);
            return Err(Failed);
        }
        if self.done == self.ends.len() {
            return Ok(None);
        }
        self.out += 1;
        Ok(Some(self.ends.remove(self.done)))
    }

    fn finish(&mut self, end: MemEnd)
        requires { 1 ≤ self.old.ends.out }
        ensures ends { self.new.ends ≡ with_finished end self.old.ends }
        ensures port { self.new.port ≡ self.old.port }
        ensures stays { CountsNone self.old self.new }
    {
        let _ = self.ends.insert(self.done, end);
        self.done += 1;
        self.out -= 1;
    }
}
