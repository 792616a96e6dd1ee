//! Whether the ends of a line make a segment of the sheet that comes after the line before.
ghost use Rattle.std.specs.Prelude.{◌≡◌, List, IfSome, IsNone, IsTrue, ◌↔◌};
ghost use Rattle.exact.specs.Plane.{ExactSegment, SegmentBefore, Before, IsSegment};
ghost use Rattle.plane.specs.Support.{IsSupportOf};
ghost use Rattle.sheet.specs.Pattern.{ExactCrease, ExactPattern};
ghost use Rattle.pattern.specs.NativeReading.{AreHeld, IsAfterLast};
ghost use Rattle.pattern.specs.NativeReader.{IsLast, PlacesLine};
ghost use Rattle.pattern.specs.NativeEnds.{ends_of};

use super::PatternWhy;
use super::line::Line;
use plane::{
    Point, Seg, Sheet, SupportLine, are_in_sheet, is_before, is_same_point, seg_on_border,
};

/// The segment of a line, with the line of the plane on which it lies, where it passes the tests
/// from Outside to OnBorder after the last one.
pub(super) fn placed(
    sheet: &Sheet,
    line: &Line,
    last: &Option<Seg>,
) -> Result<(Seg, SupportLine), PatternWhy>
    ensures { (good : ExactPattern) → good.sheet ≡ sheet.now → IsLast last.now good.creases
        → AreHeld line.now.p line.now.q → PlacesLine good (ends_of line.now) result }
{
    if !are_in_sheet(sheet, &line.p, &line.q) {
        return Err(PatternWhy::Outside);
    }
    if !is_in_order(line, last) {
        return Err(PatternWhy::Order);
    }
    let Some((seg, support)) = segment_of(line) else {
        return Err(PatternWhy::NotDirection);
    };
    if seg_on_border(sheet, &seg) {
        return Err(PatternWhy::OnBorder);
    }
    Ok((seg, support))
}

/// Whether the first end is the lesser one, and both come after the last segment.
fn is_in_order(line: &Line, last: &Option<Seg>) -> bool
    ensures { (good : List ExactCrease) → IsLast last.now good
        → IsTrue result ↔ (Before line.now.p line.now.q × IsAfterLast good (ends_of line.now)) }
{
    is_before(&line.p, &line.q) && is_after(&line.p, &line.q, last)
}

/// The segment between two ends in order and the line on which it lies, or None where no direction
/// joins them.
fn segment_of(line: &Line) -> Option<(Seg, SupportLine)>
    ensures some { IfSome result (λ s. Before line.now.p line.now.q → s.0 ≡ ends_of line.now) }
    ensures segment { IfSome result (λ s. IsSegment s.0 × IsSupportOf s.0 s.1) }
    ensures none { IsNone result → Before line.now.p line.now.q → ¬ IsSegment (ends_of line.now) }
{
    Seg::with_line(line.p, line.q).ok()
}

/// Whether two ends come after a segment, if there is one.
pub(super) fn is_after(p: &Point, q: &Point, last: &Option<Seg>) -> bool
    ensures { (good : List ExactCrease) → IsLast last.now good
        → IsTrue result ↔ (let s : ExactSegment = record { p = p.now; q = q.now } in IsAfterLast good s) }
{
    match last {
        None => true,
        Some(last) => is_after_seg(last, p, q),
    }
}

/// Whether two ends come after those of a segment.
fn is_after_seg(last: &Seg, p: &Point, q: &Point) -> bool
    ensures { IsTrue result
        ↔ (let s : ExactSegment = record { p = p.now; q = q.now } in SegmentBefore last.now s) }
{
    let from = last.p();
    let to = last.q();
    is_before(&from, p) || (is_same_point(&from, p) && is_before(&to, q))
}
