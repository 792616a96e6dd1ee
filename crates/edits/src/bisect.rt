//! The segment that halves the angle between two rays.
ghost use Rattle.std.specs.Prelude.{IfOk, IsTrue, ◌↔◌, Contains};
ghost use Rattle.sheet.specs.Pattern.{IsKey};
ghost use Rattle.sheet.specs.Sheet.{sides};
ghost use Rattle.exact.specs.Plane.{ExactSegment};
ghost use Rattle.geometry.specs.Rays.{RunsAlong};
ghost use Rattle.edits.specs.SidesAndCreases.{IsCrease};
ghost use Rattle.edits.specs.Bisect.{HasRay, Bisector};

use crate::EditBad;
use crate::extend::extension;
use crate::rays::runs_along;
use pattern::Pattern;
use plane::{Point, Seg, in_sheet, sheet_sides};
use qroot2::Dir;
use sheet::Sheet;

/// The extension from a point in the direction halfway counterclockwise from the first direction to
/// the second, a full turn where they are equal.
///
/// # Errors
///
/// `Outside` where the point is not in the sheet, `NoRay` for the first and then for the second
/// direction where no side and no crease runs along that ray, `OddAngle` where the angle is an odd
/// number of units, and then those of `extension`.
pub(crate) fn bisector(
    pattern: &Pattern,
    at: &Point,
    first: Dir,
    second: Dir,
) -> Result<Seg, EditBad>
    ensures is { Bisector pattern.now at.now first second result }
    ensures key { IfOk result (IsKey pattern.now.sheet) }
{
    if !in_sheet(&pattern.sheet(), at) {
        return Err(EditBad::Outside);
    }
    if !has_ray(pattern, at, first) {
        return Err(EditBad::NoRay { dir: first });
    }
    if !has_ray(pattern, at, second) {
        return Err(EditBad::NoRay { dir: second });
    }
    match Dir::middle(first, second) {
        Some(middle) => extension(pattern, at, middle),
        None => Err(EditBad::OddAngle),
    }
}

/// Whether a side of the sheet or a crease runs along a ray from its start on.
fn has_ray(pattern: &Pattern, at: &Point, dir: Dir) -> bool
    ensures { IsTrue result ↔ HasRay pattern.now at.now dir }
{
    has_side(&pattern.sheet(), at, dir) || has_crease(pattern, at, dir)
}

/// Whether a side of the sheet runs along a ray from its start on.
fn has_side(sheet: &Sheet, at: &Point, dir: Dir) -> bool
    ensures { IsTrue result ↔ ((s : ExactSegment) × Contains (sides sheet.now) s × RunsAlong at.now dir s) }
{
    let sides = sheet_sides(sheet);
    for side in &sides {
        if runs_along(at, dir, side) {
            return true;
        }
    }
    false
}

/// Whether a crease runs along a ray from its start on.
fn has_crease(pattern: &Pattern, at: &Point, dir: Dir) -> bool
    ensures { IsTrue result ↔ ((s : ExactSegment) × IsCrease pattern.now.creases s × RunsAlong at.now dir s) }
{
    for crease in pattern.creases() {
        if runs_along(at, dir, &crease.seg) {
            return true;
        }
    }
    false
}
