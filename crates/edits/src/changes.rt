//! The delta from a pattern to what an edit made of it.
ghost use Rattle.std.specs.Prelude.{◌≡◌, ◌↔◌, [], IfOk, IfErr, IsTrue, Ok};
ghost use Rattle.sheet.specs.Pattern.{IsPattern};
ghost use Rattle.pattern.specs.Deltas.{Fits, Leads, IsBetween};
ghost use Rattle.edits.specs.Drafts.{pattern_of};
ghost use Rattle.edits.specs.EditOf.{Changed};
ghost use Rattle.ports.specs.Stops.{Refuses};

use crate::EditBad;
use crate::draft::Draft;
use pattern::Delta;
use ports::Stop;
use std::alloc::Global;

/// The delta that leads from the pattern that was drawn on to what was made of it.
///
/// # Errors
///
/// `NoChange` where that is the pattern; `NoMemory` where memory for the lists runs out.
pub(crate) fn changes(alloc: Global, draft: &Draft<'_>) -> Result<Delta, Stop<EditBad>>
    requires { IsPattern (pattern_of draft.now) }
    ensures changed { IfOk result
        (λ _. Changed draft.now.pattern draft.now.creases (Ok (pattern_of draft.now))) }
    ensures lists { IfOk result (IsBetween draft.now.pattern.creases draft.now.creases) }
    ensures fits { IfOk result (Fits draft.now.pattern) }
    ensures leads { IfOk result (λ delta. Leads draft.now.pattern delta (pattern_of draft.now)) }
    ensures err { IfErr result (λ e. Refuses (Changed draft.now.pattern draft.now.creases) e) }
{
    let delta = draft.delta(alloc)?;
    if is_empty(&delta) {
        return Err(Stop::Why(EditBad::NoChange));
    }
    Ok(delta)
}

/// Whether no crease leaves and none comes.
fn is_empty(delta: &Delta) -> bool
    ensures { IsTrue result ↔ ((delta.now.removed ≡ []) × (delta.now.added ≡ [])) }
{
    delta.removed.as_slice().is_empty() && delta.added.as_slice().is_empty()
}
