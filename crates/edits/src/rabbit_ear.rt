//! The creases of a rabbit ear.
ghost use Rattle.std.specs.Prelude.{◌≡◌, IfOk, IfErr, Ok, Err, All};
ghost use Rattle.exact.specs.Plane.{IsPointCanonical};
ghost use Rattle.sheet.specs.Sheet.{InSheet, IsInside};
ghost use Rattle.sheet.specs.Pattern.{IsKey};
ghost use Rattle.plane.specs.Triangles.{IsIncentre, IsFootBetween};
ghost use Rattle.edits.specs.Ends.{Joins, AreJoined};
ghost use Rattle.edits.specs.RabbitEar.{marked, countermarked, IsEar, EarOf};

use crate::triangle::Triangle;
use crate::{EditBad, PointKind};
use pattern::Crease;
use plane::{Point, Seg};
use sheet::{Colour, Mark, Sheet};

/// The creases of the rabbit ear of a triangle, in the order in which they are drawn: from the
/// corners to the incentre with the mark, and from there to its foot on the side from `p` to `q`
/// with the other mark.
pub(crate) fn rabbit_ear(
    sheet: &Sheet,
    mark: Mark,
    p: &Point,
    q: &Point,
    r: &Point,
) -> Result<[Crease; 4], EditBad>
    ensures ok { IfOk result (λ ear. EarOf sheet.now mark p.now q.now r.now (Ok ear)) }
    ensures keys { IfOk result (λ ear. All (λ f. IsKey sheet.now f.seg) ear) }
    ensures err { IfErr result (λ e. EarOf sheet.now mark p.now q.now r.now (Err e)) }
{
    let triangle = Triangle::of(sheet, p, q, r)?;
    ear_of(mark, &triangle)
}

/// The creases of the rabbit ear of a triangle, where its incentre and the foot of that can be held.
fn ear_of(mark: Mark, triangle: &Triangle) -> Result<[Crease; 4], EditBad>
    ensures ok { IfOk result (λ ear.
        EarOf triangle.now.sheet mark triangle.now.p triangle.now.q triangle.now.r (Ok ear)) }
    ensures keys { IfOk result (λ ear. All (λ f. IsKey triangle.now.sheet f.seg) ear) }
    ensures err { IfErr result (λ e.
        EarOf triangle.now.sheet mark triangle.now.p triangle.now.q triangle.now.r (Err e)) }
{
    let Some(centre) = triangle.incentre() else {
        return Err(EditBad::Range {
            point: PointKind::Incentre,
        });
    };
    let Some(foot) = triangle.foot(&centre) else {
        return Err(EditBad::Range {
            point: PointKind::Foot,
        });
    };
    Ok(ear(mark, triangle, &centre, &foot))
}

/// The creases of the rabbit ear of a triangle by its incentre and the foot of that.
fn ear(mark: Mark, triangle: &Triangle, centre: &Point, foot: &Point) -> [Crease; 4]
    requires centre { IsIncentre triangle.now.p triangle.now.q triangle.now.r centre.now }
    requires centre_canonical { IsPointCanonical centre.now }
    requires foot { IsFootBetween triangle.now.p triangle.now.q centre.now foot.now }
    requires foot_canonical { IsPointCanonical foot.now }
    ensures is { IsEar mark triangle.now.p triangle.now.q triangle.now.r result }
    ensures keys { All (λ f. IsKey triangle.now.sheet f.seg) result }
{
    let sheet = triangle.sheet();
    [
        spoke(sheet, triangle.p(), centre, same_colour(mark)),
        spoke(sheet, triangle.q(), centre, same_colour(mark)),
        spoke(sheet, triangle.r(), centre, same_colour(mark)),
        spoke(sheet, foot, centre, other_colour(mark)),
    ]
}

/// The crease from a point of the sheet to an incentre.
fn spoke(sheet: &Sheet, from: &Point, centre: &Point, colour: Colour) -> Crease
    requires from { InSheet sheet.now from.now }
    requires centre { IsInside sheet.now centre.now }
    requires joined { AreJoined from.now centre.now }
    ensures joins { Joins result.seg from.now centre.now }
    ensures colour { result.colour ≡ colour }
    ensures key { IsKey sheet.now result.seg }
{
    // from 1 to 8
    let _width = sheet.w();
    let seg = Seg::new(*from, *centre).unwrap();
    Crease { seg, colour }
}

/// The colour of a mark.
fn same_colour(mark: Mark) -> Colour
    ensures { result ≡ marked mark }
{
    match mark {
        Mark::M => Colour::M,
        Mark::V => Colour::V,
    }
}

/// The colour of the other mark.
fn other_colour(mark: Mark) -> Colour
    ensures { result ≡ countermarked mark }
{
    match mark {
        Mark::M => Colour::V,
        Mark::V => Colour::M,
    }
}
