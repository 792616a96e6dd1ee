//! Laws of lines in the sixteen directions.
ghost use Rattle.std.specs.Prelude.{◌≡◌, ◌≢◌, ℕ, ◌%◌, ◌↔◌};
ghost use Rattle.exact.specs.Plane.{ExactPoint, ExactSegment, SamePoint, OnBoth, vector};
ghost use Rattle.geometry.specs.Root.{count};
ghost use Rattle.geometry.specs.Gap.{cross};
ghost use Rattle.geometry.specs.Meeting.{Along, SameSide};

/// Two segments that are not parallel have at most one common point.
pub fn one_common_point()
    ensures { (s t : ExactSegment) (k j : ℕ) (u w : ExactPoint) → Along s k → Along t j → k % 8 ≢ j % 8
        → OnBoth u s t → OnBoth w s t → SamePoint u w }
{}

/// The common point of two lines is on both segments exactly where neither has both ends strictly
/// on one side of the other.
pub fn sides_decide()
    ensures { (s t : ExactSegment) (k j : ℕ) (c : ExactPoint) → Along s k → Along t j → k % 8 ≢ j % 8
        → cross (vector k) s.p c ≡ count 0 → cross (vector j) t.p c ≡ count 0
        → ((¬ SameSide (cross (vector j) t.p s.p) (cross (vector j) t.p s.q))
        × (¬ SameSide (cross (vector k) s.p t.p) (cross (vector k) s.p t.q))) ↔ OnBoth c s t }
{}
