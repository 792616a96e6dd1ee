//! Where bytes come from and where they go.
ghost use Rattle.std.specs.Prelude.{◌≡◌, ℕ, List, Option};
ghost use Rattle.ports.specs.Streams.{Aside, Takes, Puts, HasCause, RisesOnce};

/// A call to the outside failed, and its object's count of faults rose.
#[derive(Clone, Copy, Debug, PartialEq, Eq)]
pub struct Failed;

/// Where bytes come from.
pub trait Source {
    /// What is left, where the source tells it.
    ghost left: { Self → Option (List ℕ) };

    /// How many calls have failed.
    ghost faults: { Self → ℕ };

    /// What the object has beside what it has as a source.
    ghost aside: { Self → Aside };

    /// Puts bytes at the front of the buffer and answers how many. 0 for a buffer that has room
    /// means the end. `Failed` comes only where the count of faults rose; that rises by one at most, and
    /// only then.
    fn take(&mut self, buf: &mut [u8]) -> Result<usize, Failed>
        ensures bytes { Takes (left self.old) (left self.new) buf.old buf.new result }
        ensures cause { HasCause (faults self.old) (faults self.new) result }
        ensures once { RisesOnce (faults self.old) (faults self.new) result }
        ensures aside { aside self.new ≡ aside self.old };
}

/// Where bytes go.
pub trait Sink {
    /// What it holds, where the sink tells it.
    ghost held: { Self → Option (List ℕ) };

    /// How many calls have failed.
    ghost faults: { Self → ℕ };

    /// What the object has beside what it has as a sink.
    ghost aside: { Self → Aside };

    /// Writes the whole piece. `Failed` comes only where the count of faults rose, and then a part
    /// of the piece from its front may have been written.
    fn put(&mut self, piece: &[u8]) -> Result<(), Failed>
        ensures bytes { Puts (held self.old) (held self.new) piece.now result }
        ensures cause { HasCause (faults self.old) (faults self.new) result }
        ensures aside { aside self.new ≡ aside self.old };
}
