//! The delta between two patterns.
ghost use Rattle.std.specs.Prelude.{◌≡◌, IfOk};
ghost use Rattle.sheet.specs.Pattern.{IsPattern};
ghost use Rattle.pattern.specs.Deltas.{Fits, Leads, IsBetween, IsWithout};

use crate::{Crease, Delta, Pattern};
use ports::{Listed, NoMemory};
use std::alloc::Global;

/// The delta that leads from the old pattern to the new one: the creases of the old one that are
/// not in the new one leave, and those of the new one that are not in the old one come. Both are on
/// one sheet.
///
/// # Errors
///
/// `NoMemory` where memory for the lists runs out.
pub fn between(alloc: Global, old: &Pattern, new: &Pattern) -> Result<Delta, NoMemory>
    requires { new.now.sheet ≡ old.now.sheet }
    ensures lists { IfOk result (IsBetween old.now.creases new.now.creases) }
    ensures fits { IfOk result (Fits old.now) }
    ensures leads { IfOk result (λ delta. Leads old.now delta new.now) }
{
    Ok(Delta {
        removed: without(alloc, old, new)?,
        added: without(alloc, new, old)?,
    })
}

/// The creases of a pattern that are not in another one.
fn without(alloc: Global, pattern: &Pattern, other: &Pattern) -> Result<Listed<Crease>, NoMemory>
    ensures only { IfOk result (IsWithout pattern.now.creases other.now.creases) }
    ensures pattern { IsPattern pattern.now }
{
    let mut only = Vec::new(alloc);
    for crease in pattern.creases() {
        if !other.has(&crease) {
            only.push(crease)?;
        }
    }
    Ok(Listed::new(only))
}
