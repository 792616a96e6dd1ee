//! What is drawn, erased and recoloured, as long as not too many creases stand.
ghost use Rattle.std.specs.Prelude.{◌≡◌, ◌≤◌, All, IfErr, Ok, OnOk, length};
ghost use Rattle.sheet.specs.Pattern.{IsKey, IsPattern, crease_limit};
ghost use Rattle.ports.specs.Stops.{Refuses};
ghost use Rattle.edits.specs.Drafts.{pattern_of};
ghost use Rattle.edits.specs.Drawn.{Counted, DrawnOne, DrawnInTurn};
ghost use Rattle.edits.specs.Erase.{Erased};
ghost use Rattle.edits.specs.Recolour.{Recoloured};

use crate::EditBad;
use crate::draft::Draft;
use pattern::Crease;
use plane::Seg;
use ports::Stop;
use sheet::{CREASE_LIMIT, Colour};
use std::alloc::Global;

/// Draws a crease over a draft.
///
/// # Errors
///
/// `TooManyCreases` where more than 20,000 stand then; `NoMemory` where memory runs out.
pub(crate) fn draw_one(
    alloc: Global,
    draft: &mut Draft<'_>,
    crease: &Crease,
) -> Result<(), Stop<EditBad>>
    requires key { IsKey draft.old.pattern.sheet crease.now.seg }
    requires pattern { IsPattern (pattern_of draft.old) }
    ensures ok { OnOk result (DrawnOne crease.now draft.old.creases (Ok draft.new.creases)) }
    ensures pattern { OnOk result (IsPattern (pattern_of draft.new)) }
    ensures same { draft.new.pattern ≡ draft.old.pattern }
    ensures err { IfErr result (λ e. Refuses (DrawnOne crease.now draft.old.creases) e) }
{
    draft.draw(alloc, crease)?;
    count(draft)
}

/// Draws creases over a draft, one after another.
///
/// # Errors
///
/// `TooManyCreases` where more than 20,000 stand after one of them; `NoMemory` where memory runs out.
pub(crate) fn draw_in_turn(
    alloc: Global,
    draft: &mut Draft<'_>,
    creases: &[Crease],
) -> Result<(), Stop<EditBad>>
    requires keys { All (λ f. IsKey draft.old.pattern.sheet f.seg) creases.now }
    requires pattern { IsPattern (pattern_of draft.old) }
    ensures ok { OnOk result (DrawnInTurn creases.now draft.old.creases (Ok draft.new.creases)) }
    ensures pattern { OnOk result (IsPattern (pattern_of draft.new)) }
    ensures same { draft.new.pattern ≡ draft.old.pattern }
    ensures err { IfErr result (λ e. Refuses (DrawnInTurn creases.now draft.old.creases) e) }
{
    for crease in creases {
        draw_one(alloc, draft, crease)?;
    }
    Ok(())
}

/// Takes away what creases have in common with a segment.
///
/// # Errors
///
/// `NoCrease` where no crease overlaps it; `TooManyCreases` where more than 20,000 stand then;
/// `NoMemory` where memory runs out.
pub(crate) fn erase_along(
    alloc: Global,
    draft: &mut Draft<'_>,
    seg: &Seg,
) -> Result<(), Stop<EditBad>>
    requires key { IsKey draft.old.pattern.sheet seg.now }
    requires pattern { IsPattern (pattern_of draft.old) }
    ensures ok { OnOk result (Erased draft.old.creases seg.now (Ok draft.new.creases)) }
    ensures pattern { OnOk result (IsPattern (pattern_of draft.new)) }
    ensures same { draft.new.pattern ≡ draft.old.pattern }
    ensures err { IfErr result (λ e. Refuses (Erased draft.old.creases seg.now) e) }
{
    if draft.is_bare(alloc, seg)? {
        return Err(Stop::Why(EditBad::NoCrease));
    }
    draft.erase(alloc, seg)?;
    count(draft)
}

/// Gives what creases have in common with a segment a new colour.
///
/// # Errors
///
/// `NoCrease` where no crease overlaps it; `TooManyCreases` where more than 20,000 stand then;
/// `NoMemory` where memory runs out.
pub(crate) fn recolour_along(
    alloc: Global,
    draft: &mut Draft<'_>,
    seg: &Seg,
    colour: Colour,
) -> Result<(), Stop<EditBad>>
    requires key { IsKey draft.old.pattern.sheet seg.now }
    requires pattern { IsPattern (pattern_of draft.old) }
    ensures ok { OnOk result (Recoloured draft.old.creases seg.now colour (Ok draft.new.creases)) }
    ensures pattern { OnOk result (IsPattern (pattern_of draft.new)) }
    ensures same { draft.new.pattern ≡ draft.old.pattern }
    ensures err { IfErr result (λ e. Refuses (Recoloured draft.old.creases seg.now colour) e) }
{
    if draft.is_bare(alloc, seg)? {
        return Err(Stop::Why(EditBad::NoCrease));
    }
    draft.recolour(alloc, seg, colour)?;
    count(draft)
}

/// Tests that not too many creases stand.
fn count(draft: &Draft<'_>) -> Result<(), Stop<EditBad>>
    ensures ok { OnOk result (Counted draft.now.creases (Ok draft.now.creases)) }
    ensures few { OnOk result (length draft.now.creases ≤ crease_limit) }
    ensures err { IfErr result (λ e. Refuses (Counted draft.now.creases) e) }
{
    let count = draft.len();
    if count > CREASE_LIMIT {
        return Err(Stop::Why(EditBad::TooManyCreases {
            count: count as u64,
        }));
    }
    Ok(())
}
