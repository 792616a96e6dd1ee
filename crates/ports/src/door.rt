//! Connections, which are source and sink at once, and the door that hands them out.
ghost use Rattle.std.specs.Prelude.{◌≡◌, ℕ, Option, Some, None, option_map};
ghost use Rattle.ports.specs.Streams.{Beside, HasCause};
ghost use Rattle.ports.specs.Doors.{Ends, HasOut, HandsOut, with_finished};

use crate::{Failed, Sink, Source};

/// Where bytes come from and go to. It has one count of faults as a source and one as a sink. A call
/// that is lent it only as a source leaves what was put there alone, and the other way round.
pub trait Wire: Source + Sink {
    /// What it has beside what it has as a source: its count as a sink, and what it holds.
    ghost beside_source: { (wire : Self)
        → Self.Source.aside wire ≡ Beside (Self.Sink.faults wire) (Self.held wire) };

    /// What it has beside what it has as a sink: its count as a source, and what is left.
    ghost beside_sink: { (wire : Self)
        → Self.Sink.aside wire ≡ Beside (Self.Source.faults wire) (Self.left wire) };
}

/// Hands out connections, its ends, one after another.
pub trait Door {
    /// A connection.
    type End: Wire;

    /// The number that was given to `listen`, if any was.
    ghost door_port: { Self → Option ℕ };

    /// The ends still to come, how many are out and the finished ones, where the door tells them.
    ghost ends: { Self → Option (Ends Self.End) };

    /// How many calls have failed.
    ghost door_faults: { Self → ℕ };

    /// Begins to take connections at this port. `Failed` comes only where the count of faults rose;
    /// then too the port is the given one, and this is not called again.
    fn listen(&mut self, port: u16) -> Result<(), Failed>
        requires { door_port self.old ≡ None }
        ensures port { door_port self.new ≡ Some port }
        ensures ends { ends self.new ≡ ends self.old }
        ensures cause { HasCause (door_faults self.old) (door_faults self.new) result };

    /// The next connection. None means that no more will come. `Failed` comes only where the count of
    /// faults rose.
    fn next(&mut self) -> Result<Option<Self::End>, Failed>
        ensures port { door_port self.new ≡ door_port self.old }
        ensures ends { HandsOut (ends self.old) (ends self.new) result }
        ensures cause { HasCause (door_faults self.old) (door_faults self.new) result };

    /// Takes an end back that is done.
    fn finish(&mut self, end: Self::End)
        requires { HasOut (ends self.old) }
        ensures port { door_port self.new ≡ door_port self.old }
        ensures ends { ends self.new ≡ option_map (with_finished end) (ends self.old) }
        ensures faults { door_faults self.new ≡ door_faults self.old };
}
