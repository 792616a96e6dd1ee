//! Laws of the order of points and of segments, on which sorted lists and ordered maps rest, and of
//! the line on which a segment lies. Each is a theorem: a function that does nothing, whose clause
//! says what holds.
ghost use Rattle.std.specs.Prelude.{◌≡◌, ◌↔◌};
ghost use Rattle.std.specs.Cmp.{IsTotalOrder};
ghost use Rattle.std.specs.declared.cmp.Ordering.TheVariants.{Less, Equal};
ghost use Rattle.exact.specs.Plane.{ExactPoint, ExactSegment, IsSegment, SamePoint, Before, SegmentBefore};
ghost use Rattle.exact.specs.Plane.{IsPointCanonical};
ghost use Rattle.plane.specs.Order.{point_cmp, segment_cmp};
ghost use Rattle.plane.specs.Segments.{HasCanonicalEnds};
ghost use Rattle.plane.specs.Support.{ExactLine, IsSupportOf, AreOnOneLine, line_cmp};

use crate::{Point, Seg, SupportLine};

/// Points, segments and lines are compared, as keys of a map too, by their numbers one after another.
pub fn orders_are_of_numbers()
    ensures points { (p q : ExactPoint) → ⟦<Point as Ord>⟧.cmp p q ≡ point_cmp p q }
    ensures segments { (s t : ExactSegment) → ⟦<Seg as Ord>⟧.cmp s t ≡ segment_cmp s t }
    ensures lines { (l m : ExactLine) → ⟦<SupportLine as Ord>⟧.cmp l m ≡ line_cmp l m }
{}

/// The order of points is total and transitive, and what it calls equal is one point.
pub fn point_order_is_total()
    ensures total { IsTotalOrder point_cmp }
    ensures exact { (p q : ExactPoint) → point_cmp p q ≡ Equal → p ≡ q }
{}

/// Of points that can be held the order is that of the real values, by x and then by y.
pub fn point_order_is_of_values()
    ensures less { (p q : ExactPoint) → IsPointCanonical p → IsPointCanonical q
        → (point_cmp p q ≡ Less) ↔ Before p q }
    ensures equal { (p q : ExactPoint) → IsPointCanonical p → IsPointCanonical q
        → (point_cmp p q ≡ Equal) ↔ SamePoint p q }
{}

/// The order of segments is total and transitive, and what it calls equal is one segment.
pub fn segment_order_is_total()
    ensures total { IsTotalOrder segment_cmp }
    ensures exact { (s t : ExactSegment) → segment_cmp s t ≡ Equal → s ≡ t }
{}

/// Of segments whose ends can be held the order is by the lesser end and then by the greater one.
pub fn segment_order_is_of_values()
    ensures { (s t : ExactSegment) → HasCanonicalEnds s → HasCanonicalEnds t
        → (segment_cmp s t ≡ Less) ↔ SegmentBefore s t }
{}

/// Two segments have one supporting line exactly where they lie on one line.
pub fn support_is_the_line()
    ensures { (s t : ExactSegment) (l m : ExactLine) → IsSegment s → IsSegment t
        → IsSupportOf s l → IsSupportOf t m → (l ≡ m) ↔ AreOnOneLine s t }
{}
