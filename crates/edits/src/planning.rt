//! What an edit makes of a pattern, as a delta.
ghost use Rattle.std.specs.Prelude.{◌≡◌, All, IfOk, IfErr, Ok};
ghost use Rattle.sheet.specs.Pattern.{ExactPattern, IsKey, IsPattern};
ghost use Rattle.pattern.specs.Deltas.{Fits, Leads, IsBetween};
ghost use Rattle.ports.specs.Stops.{Refuses};
ghost use Rattle.edits.specs.Answers.{Answers};
ghost use Rattle.edits.specs.CreaseSet.{crease};
ghost use Rattle.edits.specs.Drafts.{pattern_of};
ghost use Rattle.edits.specs.Drawn.{DrawnOne, DrawnInTurn};
ghost use Rattle.edits.specs.Erase.{Erased};
ghost use Rattle.edits.specs.Recolour.{Recoloured};
ghost use Rattle.edits.specs.EditOf.{Edited, EditOf};

use crate::bisect::bisector;
use crate::changes::changes;
use crate::draft::Draft;
use crate::drawing::{draw_in_turn, draw_one, erase_along, recolour_along};
use crate::ends::segment_between;
use crate::extend::extension;
use crate::flip::flipped_draft;
use crate::lines::test_lines;
use crate::mirror::mirror_images;
use crate::rabbit_ear::rabbit_ear;
use crate::{Edit, EditBad};
use pattern::{Crease, Delta, Pattern};
use plane::Seg;
use ports::Stop;
use sheet::Colour;
use std::alloc::Global;

/// The delta of an edit of a pattern: it fits the pattern, leads to what the edit makes of it, and
/// changes no crease that stays as it is.
///
/// # Errors
///
/// The first rule of the edit that is broken, in the order in which its entry of [`Edit`] names
/// them. Then `TooManyCreases` where more than 20,000 creases stand after a drawing, with their
/// number; then `NoChange` where the pattern would be the same. `NoMemory` where memory runs out.
pub fn plan(alloc: Global, pattern: &Pattern, edit: &Edit) -> Result<Delta, Stop<EditBad>>
    ensures fits { IfOk result (Fits pattern.now) }
    ensures leads { IfOk result
        (λ delta. (new : ExactPattern) × EditOf pattern.now edit.now (Ok new) × Leads pattern.now delta new
        × IsBetween pattern.now.creases new.creases delta) }
    ensures refused { IfErr result (λ e. Refuses (EditOf pattern.now edit.now) e) }
{
    let draft = edited(alloc, pattern, edit)?;
    changes(alloc, &draft)
}

/// What an edit makes of a pattern.
fn edited<'a>(alloc: Global, pattern: &'a Pattern, edit: &Edit) -> Result<Draft<'a>, Stop<EditBad>>
    ensures is { Answers (Edited pattern.now edit.now) result }
    ensures pattern { IfOk result (λ draft. IsPattern (pattern_of draft)) }
    ensures same { IfOk result (λ draft. draft.pattern ≡ pattern.now) }
{
    let sheet = pattern.sheet();
    match edit {
        Edit::Draw { colour, from, to } => {
            drawn(alloc, pattern, segment_between(&sheet, from, to)?, *colour)
        }
        Edit::Erase { from, to } => erased(alloc, pattern, &segment_between(&sheet, from, to)?),
        Edit::Recolour { colour, from, to } => {
            recoloured(alloc, pattern, &segment_between(&sheet, from, to)?, *colour)
        }
        Edit::Flip => Ok(flipped_draft(alloc, pattern)?),
        Edit::Extend { colour, at, dir } => {
            drawn(alloc, pattern, extension(pattern, at, *dir)?, *colour)
        }
        Edit::Bisect {
            colour,
            at,
            first,
            second,
        } => drawn(
            alloc,
            pattern,
            bisector(pattern, at, *first, *second)?,
            *colour,
        ),
        Edit::Mirror { at, dir } => {
            drawn_in_turn(alloc, pattern, &mirror_images(alloc, pattern, at, *dir)?)
        }
        Edit::RabbitEar { mark, p, q, r } => {
            drawn_in_turn(alloc, pattern, &rabbit_ear(&sheet, *mark, p, q, r)?)
        }
        Edit::Lines(lines) => {
            test_lines(&sheet, lines.as_slice())?;
            drawn_in_turn(alloc, pattern, lines.as_slice())
        }
    }
}

/// A pattern with a segment drawn over it in a colour.
fn drawn<'a>(
    alloc: Global,
    pattern: &'a Pattern,
    seg: Seg,
    colour: Colour,
) -> Result<Draft<'a>, Stop<EditBad>>
    requires { IsKey pattern.now.sheet seg }
    ensures is { Answers (DrawnOne (crease seg colour) pattern.now.creases) result }
    ensures pattern { IfOk result (λ draft. IsPattern (pattern_of draft)) }
    ensures same { IfOk result (λ draft. draft.pattern ≡ pattern.now) }
{
    let mut draft = Draft::of(alloc, pattern);
    draw_one(alloc, &mut draft, &Crease { seg, colour })?;
    Ok(draft)
}

/// A pattern with creases drawn over it, one after another.
fn drawn_in_turn<'a>(
    alloc: Global,
    pattern: &'a Pattern,
    creases: &[Crease],
) -> Result<Draft<'a>, Stop<EditBad>>
    requires { All (λ f. IsKey pattern.now.sheet f.seg) creases.now }
    ensures is { Answers (DrawnInTurn creases.now pattern.now.creases) result }
    ensures pattern { IfOk result (λ draft. IsPattern (pattern_of draft)) }
    ensures same { IfOk result (λ draft. draft.pattern ≡ pattern.now) }
{
    let mut draft = Draft::of(alloc, pattern);
    draw_in_turn(alloc, &mut draft, creases)?;
    Ok(draft)
}

/// A pattern without what its creases have in common with a segment.
fn erased<'a>(alloc: Global, pattern: &'a Pattern, seg: &Seg) -> Result<Draft<'a>, Stop<EditBad>>
    requires { IsKey pattern.now.sheet seg.now }
    ensures is { Answers (Erased pattern.now.creases seg.now) result }
    ensures pattern { IfOk result (λ draft. IsPattern (pattern_of draft)) }
    ensures same { IfOk result (λ draft. draft.pattern ≡ pattern.now) }
{
    let mut draft = Draft::of(alloc, pattern);
    erase_along(alloc, &mut draft, seg)?;
    Ok(draft)
}

/// A pattern with a new colour for what its creases have in common with a segment.
fn recoloured<'a>(
    alloc: Global,
    pattern: &'a Pattern,
    seg: &Seg,
    colour: Colour,
) -> Result<Draft<'a>, Stop<EditBad>>
    requires { IsKey pattern.now.sheet seg.now }
    ensures is { Answers (Recoloured pattern.now.creases seg.now colour) result }
    ensures pattern { IfOk result (λ draft. IsPattern (pattern_of draft)) }
    ensures same { IfOk result (λ draft. draft.pattern ≡ pattern.now) }
{
    let mut draft = Draft::of(alloc, pattern);
    recolour_along(alloc, &mut draft, seg, colour)?;
    Ok(draft)
}
