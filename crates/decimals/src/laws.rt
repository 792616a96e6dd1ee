//! Laws of decimals. Each is a theorem: a function that does nothing, whose clause says what holds.
ghost use Rattle.std.specs.Prelude.{◌≡◌, ℕ, ℤ, List};
ghost use Rattle.exact.specs.Plane.{ExactPoint};
ghost use Rattle.decimals.specs.Decimal.{IsDecimal};
ghost use Rattle.decimals.specs.DecimalText.{decimal_text};
ghost use Rattle.decimals.specs.DecimalPoint.{AreDecimalPoints};
ghost use Rattle.decimals.specs.declared.point.DecimalPoint.{DecimalPoint};

/// Bytes are read as one decimal at most.
pub fn a_decimal_has_one_value()
    ensures { (bytes : List ℕ) (x y : ℤ) → IsDecimal bytes x → IsDecimal bytes y → x ≡ y }
{}

/// A decimal that is written is read as itself.
pub fn a_written_decimal_is_read()
    ensures { (x : ℤ) → IsDecimal (decimal_text x) x }
{}

/// Points are cut to decimals in one way.
pub fn decimal_points_are_one()
    ensures { (scale origin : ℕ) → (ps : List ExactPoint) → (qs rs : List DecimalPoint)
        → AreDecimalPoints scale origin ps qs → AreDecimalPoints scale origin ps rs → qs ≡ rs }
{}
