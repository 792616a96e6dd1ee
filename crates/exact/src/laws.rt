//! Laws of exact numbers and of the sixteen directions. Each is a theorem: a function that does
//! nothing, whose clause says what holds of all exact numbers.
ghost use Rattle.std.specs.Prelude.{◌≡◌, ◌⊎◌, ℕ, ◌<◌};
ghost use Rattle.exact.specs.Order.{HasSide, Tells, real_cmp};
ghost use Rattle.exact.specs.Number.{ExactNumber, IsCanonical, Same, Less, Positive, add, mul};
ghost use Rattle.exact.specs.Plane.{TurnsByAngle};

/// Two canonical triples that stand for one number are one triple.
pub fn canonical_is_unique()
    ensures { (x y : ExactNumber) → IsCanonical x → IsCanonical y → Same x y → x ≡ y }
{}

/// Each number of the form a + b √2 is above zero, below it, or zero.
pub fn has_side()
    ensures { HasSide }
{}

/// Of two numbers one is less, or they are one number.
pub fn order_is_total()
    ensures { (x y : ExactNumber) → Less x y ⊎ (Same x y ⊎ Less y x) }
{}

/// A number that is less than another is not that number, nor above it.
pub fn order_is_strict()
    ensures { (x y : ExactNumber) → Less x y → (¬ Same x y) × (¬ Less y x) }
{}

/// A number below one that is below a third is below the third.
pub fn order_is_transitive()
    ensures { (x y z : ExactNumber) → Less x y → Less y z → Less x z }
{}

/// To be one number is kept by turning and by going on.
pub fn same_is_equality()
    ensures itself { (x : ExactNumber) → Same x x }
    ensures back { (x y : ExactNumber) → Same x y → Same y x }
    ensures on { (x y z : ExactNumber) → Same x y → Same y z → Same x z }
{}

/// The order does not ask for the triples of its numbers.
pub fn order_is_of_values()
    ensures { (x y z w : ExactNumber) → Same x y → Same z w → Less x z → Less y w }
{}

/// The order is kept by adding one number to both sides.
pub fn order_is_kept_by_adding()
    ensures { (x y z : ExactNumber) → Less x y → Less (add x z) (add y z) }
{}

/// The order is kept by a positive factor.
pub fn order_is_kept_by_positive_factor()
    ensures { (x y z : ExactNumber) → Positive z.a z.b → Less x y → Less (mul x z) (mul y z) }
{}

/// The comparison of values tells the order, each of its three answers both ways.
pub fn comparison_tells_order()
    ensures { (x y : ExactNumber) → Tells (real_cmp x y) x y }
{}

/// The turn from one direction to another is above zero, zero or below it by the angle between
/// them alone.
pub fn turns_by_angle()
    ensures { (i j : ℕ) → i < 16 → j < 16 → TurnsByAngle i j }
{}
