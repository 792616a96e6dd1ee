//! A unit of a script of which not all was taken yet.
ghost use Rattle.std.specs.Prelude.{◌≡◌, ◌+◌, ◌-◌, ◌<◌, [], ◌++◌, length, take, IfOk};
ghost use Rattle.commands.specs.Lines.{IsWanted};
ghost use Rattle.lines.specs.Lines.{IsLine};
ghost use Rattle.oriedit.specs.Unfinished.{EndsLine, IsUnfinished};

use commands::lines_wanted;
use std::alloc::{AllocError, Global};

/// A unit of a script of which not all was taken yet.
#[derive(Drop)]
pub(crate) struct Unfinished {
    /// What was taken of it.
    pub(crate) bytes: Vec<u8>,
    /// How many lines behind its first one are not whole yet; 0 as long as the first is not whole.
    pub(crate) wanted: u32,
}

impl Unfinished {
    /// A unit of which nothing was taken.
    pub(crate) fn new(alloc: Global) -> Unfinished
        ensures bytes { result.bytes.items ≡ [] }
        ensures wanted { result.wanted ≡ 0 }
    {
        Unfinished {
            bytes: Vec::new(alloc),
            wanted: 0,
        }
    }

    /// Takes the end of a line, and answers whether the unit is whole with it.
    ///
    /// # Errors
    ///
    /// Where memory runs out.
    pub(crate) fn end_line(&mut self, end: &[u8]) -> Result<bool, AllocError>
        requires unfinished { IsUnfinished self.old.bytes.items self.old.wanted }
        requires line { IsLine end.now }
        ensures bytes { IfOk result (λ _. self.new.bytes.items ≡ self.old.bytes.items ++ end.now) }
        ensures whole { IfOk result (EndsLine self.new.bytes.items self.new.wanted) }
    {
        self.bytes.extend_from_slice(end)?;
        self.wanted = still_wanted(&self.bytes, self.wanted);
        Ok(self.wanted == 0)
    }
}

/// How many lines are wanted behind one that has just ended, where so many were before: 0 where it
/// is the first line, and these are its bytes.
fn still_wanted(bytes: &[u8], wanted: u32) -> u32
    requires { 0 < length bytes.now }
    ensures first { wanted ≡ 0 → IsWanted (take (length bytes.now - 1) bytes.now) result }
    ensures further { ¬ (wanted ≡ 0) → result + 1 ≡ wanted }
{
    if wanted == 0 {
        lines_wanted(&bytes[..bytes.len() - 1])
    } else {
        wanted - 1
    }
}
