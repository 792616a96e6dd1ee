//! Laws of marks. Each is a theorem: a function that does nothing, whose clause says what holds.
ghost use Rattle.std.specs.Prelude.{◌≡◌, ◌≢◌, ℕ, ℤ, ◌<ℤ◌};
ghost use Rattle.exact.specs.Number.{Less};
ghost use Rattle.exact.specs.Plane.{ExactPoint, ExactSegment, OnSeg, OnBoth, IsPointRepresentable};
ghost use Rattle.geometry.specs.Meeting.{Along};
ghost use Rattle.plane.specs.Ways.{IsAhead};
ghost use Rattle.forms.specs.Common.{IsSmall};
ghost use Rattle.forms.specs.Forms.{form_of};
ghost use Rattle.forms.specs.Marks.{IsMark, IsBetween};

/// The direction of a segment leads to later points, so that it has a row of marks.
pub fn segments_lead_ahead()
    ensures { (s : ExactSegment) (k : ℕ) → Along s k → IsAhead k }
{}

/// Marks that differ tell the order of the forms.
pub fn marks_tell_order()
    ensures { (n k : ℕ) (p r : ExactPoint) (m l : ℤ) → IsMark n k p m → IsMark n k r l
        → m <ℤ l → Less (form_of k p) (form_of k r) }
{}

/// All points of a segment have one mark in its direction.
pub fn marks_along_are_one()
    ensures { (n k : ℕ) (t : ExactSegment) (r : ExactPoint) (m l : ℤ) → Along t k → OnSeg r t
        → IsMark n k t.p m → IsMark n k r l → m ≡ l }
{}

/// Where two segments have a common point, the mark of one in its own direction is between those of
/// the ends of the other.
pub fn marks_of_ends_enclose()
    ensures { (n k j : ℕ) (s t : ExactSegment) (r : ExactPoint) (a b m : ℤ) → Along s j → Along t k
        → OnBoth r s t → IsMark n k s.p a → IsMark n k s.q b → IsMark n k t.p m → IsBetween a b m }
{}

/// A point with the greater mark in direction 4 is further left.
pub fn marks_tell_what_ends_left()
    ensures { (n : ℕ) (p r : ExactPoint) (m l : ℤ) → IsMark n 4 p m → IsMark n 4 r l
        → l <ℤ m → Less p.x r.x }
{}

/// A segment that ends left of where another begins has no common point with that, nor with any
/// that begins no further left.
pub fn what_ends_left_is_apart()
    ensures { (s t u : ExactSegment) (r : ExactPoint) → Less s.q.x t.p.x → ¬ Less u.p.x t.p.x
        → ¬ OnBoth r s u }
{}

/// Two segments of different directions, each from a point that is small over the same denominator, have
/// no common point out of range.
pub fn small_points_cross_within_range()
    ensures { (d k j : ℕ) (s t : ExactSegment) (v : ExactPoint) → IsSmall d s.p → IsSmall d t.p → Along s k
        → Along t j → k ≢ j → OnBoth v s t → IsPointRepresentable v }
{}
