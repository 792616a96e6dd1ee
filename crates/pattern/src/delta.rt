//! Deltas: which creases leave a pattern, and which come.
ghost use Rattle.std.specs.Prelude.{◌≡◌, IfOk};
ghost use Rattle.pattern.specs.Deltas.{inverse_of};

use crate::Crease;
use ports::{Listed, NoMemory};
use std::alloc::Global;

/// A step from one pattern to another: which creases leave, and which come. Both lists ascend by
/// their segments where the delta fits a pattern. A crease that only changes its colour leaves with
/// the old one and comes with the new one.
#[derive(Drop)]
pub struct Delta {
    /// The creases that leave.
    pub removed: Listed<Crease>,
    /// The creases that come.
    pub added: Listed<Crease>,
}

impl Delta {
    /// The delta that takes back what this one does. It takes no memory.
    pub fn inverse(self) -> Delta
        ensures { result ≡ inverse_of self }
    {
        Delta {
            removed: self.added,
            added: self.removed,
        }
    }

    /// An equal delta.
    ///
    /// # Errors
    ///
    /// `NoMemory` where memory for the lists runs out.
    pub fn copy(&self, alloc: Global) -> Result<Delta, NoMemory>
        ensures { IfOk result (λ delta. delta ≡ self.now) }
    {
        Ok(Delta {
            removed: copied(alloc, &self.removed)?,
            added: copied(alloc, &self.added)?,
        })
    }
}

/// An equal list.
fn copied(alloc: Global, creases: &Listed<Crease>) -> Result<Listed<Crease>, NoMemory>
    ensures { IfOk result (λ list. list ≡ creases.now) }
{
    Ok(Listed::new(Vec::from_slice(alloc, creases.as_slice())?))
}
