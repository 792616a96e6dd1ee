//! The segment along a ray to the first crease or side.
ghost use Rattle.std.specs.Prelude.{◌<◌, IfOk, Contains};
ghost use Rattle.exact.specs.Plane.{IsPointCanonical};
ghost use Rattle.sheet.specs.Sheet.{sides};
ghost use Rattle.sheet.specs.Pattern.{IsKey};
ghost use Rattle.geometry.specs.Rays.{OnRay};
ghost use Rattle.edits.specs.Ends.{Joins};
ghost use Rattle.edits.specs.SidesAndCreases.{IsSideOrCrease};
ghost use Rattle.edits.specs.Sights.{Sees};
ghost use Rattle.edits.specs.Extend.{Extension};

use crate::border::leads_inside;
use crate::sight::{Sight, both, met};
use crate::{EditBad, PointKind};
use pattern::Pattern;
use plane::{Point, Seg, in_sheet, sheet_sides};
use qroot2::Dir;
use sheet::Sheet;

/// The segment from a point along the ray in a direction to the first other point on a crease or a
/// side of the sheet.
///
/// # Errors
///
/// `Outside` where the point is not in the sheet, `AtBorder` where the ray does not lead inside,
/// `Covered` where a crease runs along it from its start, and `Range` where it meets a crease or a
/// side in exactly one point, which cannot be held.
pub(crate) fn extension(pattern: &Pattern, at: &Point, dir: Dir) -> Result<Seg, EditBad>
    ensures is { Extension pattern.now at.now dir result }
    ensures key { IfOk result (IsKey pattern.now.sheet) }
{
    let sheet = pattern.sheet();
    if !in_sheet(&sheet, at) {
        return Err(EditBad::Outside);
    }
    if !leads_inside(&sheet, at, dir) {
        return Err(EditBad::AtBorder);
    }
    match all_met(pattern, at, dir) {
        Sight::Along => Err(EditBad::Covered),
        Sight::OutOfRange => Err(EditBad::Range {
            point: PointKind::End,
        }),
        Sight::First(end) => Ok(segment_to(at, dir, &end)),
        Sight::Nothing => unreachable!(),
    }
}

/// What a ray meets of the sides of the sheet and the creases.
fn all_met(pattern: &Pattern, at: &Point, dir: Dir) -> Sight
    ensures sees { Sees at.now dir (IsSideOrCrease pattern.now) result }
    ensures small { dir < 16 }
{
    let _number = dir.number();
    let mut seen = sides_met(&pattern.sheet(), at, dir);
    for crease in pattern.creases() {
        seen = both(dir, seen, met(at, dir, &crease.seg));
    }
    seen
}

/// What a ray meets of the sides of the sheet.
fn sides_met(sheet: &Sheet, at: &Point, dir: Dir) -> Sight
    ensures { Sees at.now dir (Contains (sides sheet.now)) result }
{
    let _number = dir.number();
    let sides = sheet_sides(sheet);
    let mut seen = Sight::Nothing;
    for side in &sides {
        seen = both(dir, seen, met(at, dir, side));
    }
    seen
}

/// The segment from the start of a ray to one of its points.
fn segment_to(at: &Point, dir: Dir, end: &Point) -> Seg
    requires { OnRay at.now dir end.now }
    ensures joins { Joins result at.now end.now }
    ensures from { IsPointCanonical result.p }
    ensures to { IsPointCanonical result.q }
{
    let _number = dir.number();
    Seg::new(*at, *end).unwrap()
}
