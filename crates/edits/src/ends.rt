//! The segment between two points that are given.
ghost use Rattle.std.specs.Prelude.{IfOk};
ghost use Rattle.sheet.specs.Pattern.{IsKey};
ghost use Rattle.edits.specs.Ends.{EndsOf};

use crate::EditBad;
use plane::{Point, Seg, are_in_sheet, is_same_point, seg_on_border};
use sheet::Sheet;

/// The segment between two points, given in either order, where it can stand in a pattern.
///
/// # Errors
///
/// `Outside` where a point is not in the sheet; else `SamePoint` where they are one; else
/// `NotDirection` where none of the sixteen directions joins them; else `OnBorder` where the segment
/// lies on a side of the sheet.
pub(crate) fn segment_between(sheet: &Sheet, from: &Point, to: &Point) -> Result<Seg, EditBad>
    ensures is { EndsOf sheet.now from.now to.now result }
    ensures key { IfOk result (IsKey sheet.now) }
{
    if !are_in_sheet(sheet, from, to) {
        return Err(EditBad::Outside);
    }
    if is_same_point(from, to) {
        return Err(EditBad::SamePoint);
    }
    let Ok(seg) = Seg::new(*from, *to) else {
        return Err(EditBad::NotDirection);
    };
    if seg_on_border(sheet, &seg) {
        return Err(EditBad::OnBorder);
    }
    Ok(seg)
}
