//! The images of creases in a line: of those that do not reach to its right and do not lie on it.
ghost use Rattle.std.specs.Prelude.{◌↔◌, ◌<◌, IfErr, IfNone, IfOk, IfSome, IsTrue, All, Ok};
ghost use Rattle.exact.specs.Plane.{ExactPoint, IsPointRepresentable};
ghost use Rattle.sheet.specs.Pattern.{IsKey};
ghost use Rattle.ports.specs.Stops.{Refuses};
ghost use Rattle.edits.specs.Lefts.{AreLeft};
ghost use Rattle.edits.specs.Rules.{ForEach};
ghost use Rattle.edits.specs.Mirror.{AreConcerned, ImageOf, IsConcerned, IsEndImage, IsSegmentImage};
ghost use Rattle.edits.specs.Mirror.{MirrorImages};

use crate::{EditBad, PointKind};
use pattern::{Crease, Pattern};
use plane::{Point, Seg, are_in_sheet, in_sheet, reflect, seg_on_border, side};
use ports::{NoMemory, Stop};
use qroot2::{Dir, Sign};
use sheet::Sheet;
use std::alloc::Global;

/// The images, in the line through a point in a direction, of the creases of a pattern that have no
/// point on the right of that line and do not lie on it, ascending by the creases that are mirrored.
///
/// # Errors
///
/// `Outside` where the point is not in the sheet; else `NoCrease` where no crease is mirrored; else,
/// of the first crease that has no image that can stand in a pattern, `Range` where an end's image
/// cannot be held, else `Outside` where it is not in the sheet, else `OnBorder` where the image of
/// the crease lies on a side of the sheet. `NoMemory` where memory runs out.
pub(crate) fn mirror_images(
    alloc: Global,
    pattern: &Pattern,
    at: &Point,
    dir: Dir,
) -> Result<Vec<Crease>, Stop<EditBad>>
    ensures ok { IfOk result (λ images. MirrorImages pattern.now at.now dir (Ok images.items)) }
    ensures keys { IfOk result (λ images. All (λ f. IsKey pattern.now.sheet f.seg) images.items) }
    ensures err { IfErr result (λ e. Refuses (MirrorImages pattern.now at.now dir) e) }
{
    let sheet = pattern.sheet();
    if !in_sheet(&sheet, at) {
        return Err(Stop::Why(EditBad::Outside));
    }
    let concerned = concerned(alloc, pattern, at, dir)?;
    if concerned.is_empty() {
        return Err(Stop::Why(EditBad::NoCrease));
    }
    images(alloc, &sheet, &concerned, at, dir)
}

/// The creases of a pattern that are mirrored, ascending.
fn concerned(
    alloc: Global,
    pattern: &Pattern,
    at: &Point,
    dir: Dir,
) -> Result<Vec<Crease>, NoMemory>
    ensures { IfOk result (λ list. AreConcerned pattern.now.creases at.now dir list.items) }
{
    let mut concerned = Vec::new(alloc);
    for crease in pattern.creases() {
        if is_concerned(&crease.seg, at, dir) {
            concerned.push(crease)?;
        }
    }
    Ok(concerned)
}

/// Whether a segment has no point on the right of the line through `at` in direction `dir`, and does
/// not lie on that line.
fn is_concerned(seg: &Seg, at: &Point, dir: Dir) -> bool
    ensures { IsTrue result ↔ IsConcerned at.now dir seg.now }
{
    are_left(side(at, dir, &seg.p()), side(at, dir, &seg.q()))
}

/// Whether neither side is the right one, and not both points are on the line.
fn are_left(from: Sign, to: Sign) -> bool
    ensures { IsTrue result ↔ AreLeft from to }
{
    match (from, to) {
        (Sign::Plus, Sign::Plus | Sign::Zero) | (Sign::Zero, Sign::Plus) => true,
        _ => false,
    }
}

/// The images of creases, in their order.
fn images(
    alloc: Global,
    sheet: &Sheet,
    creases: &[Crease],
    at: &Point,
    dir: Dir,
) -> Result<Vec<Crease>, Stop<EditBad>>
    ensures ok { IfOk result
        (λ images. ForEach (ImageOf sheet.now at.now dir) creases.now (Ok images.items)) }
    ensures keys { IfOk result (λ images. All (λ f. IsKey sheet.now f.seg) images.items) }
    ensures err { IfErr result (λ e. Refuses (ForEach (ImageOf sheet.now at.now dir) creases.now) e) }
{
    let mut images = Vec::new(alloc);
    for crease in creases {
        let image = image_of(sheet, crease, at, dir)?;
        images.push(image)?;
    }
    Ok(images)
}

/// The image of a crease, in its colour, where it can stand in a pattern.
fn image_of(sheet: &Sheet, crease: &Crease, at: &Point, dir: Dir) -> Result<Crease, EditBad>
    ensures is { ImageOf sheet.now at.now dir crease.now result }
    ensures key { IfOk result (λ image. IsKey sheet.now image.seg) }
{
    // from 1 to 8
    let _width = sheet.w();
    let Some(seg) = segment_image(&crease.seg, at, dir) else {
        return Err(EditBad::Range {
            point: PointKind::Image,
        });
    };
    if !are_in_sheet(sheet, &seg.p(), &seg.q()) {
        return Err(EditBad::Outside);
    }
    if seg_on_border(sheet, &seg) {
        return Err(EditBad::OnBorder);
    }
    Ok(Crease {
        seg,
        colour: crease.colour,
    })
}

/// The image of a segment, or None where the image of an end cannot be held.
fn segment_image(seg: &Seg, at: &Point, dir: Dir) -> Option<Seg>
    ensures some { IfSome result (λ image. IsSegmentImage at.now dir seg.now image) }
    ensures none { IfNone result
        ((v : ExactPoint) × IsEndImage at.now dir seg.now v × (¬ IsPointRepresentable v)) }
    ensures small { dir < 16 }
{
    // below 16
    let _number = dir.number();
    let from = reflect(&seg.p(), at, dir)?;
    let to = reflect(&seg.q(), at, dir)?;
    Some(Seg::new(from, to).unwrap())
}
