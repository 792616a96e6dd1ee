//! Laws of the order of `Num`, on which an ordered map with such keys rests, and of its text. Each
//! is a theorem: a function that does nothing, whose clause says what holds.
ghost use Rattle.std.specs.Prelude.{◌≡◌, ◌<◌, ◌↔◌};
ghost use Rattle.std.specs.Cmp.{IsTotalOrder};
ghost use Rattle.std.specs.declared.cmp.Ordering.TheVariants.{Equal};
ghost use Rattle.exact.specs.Number.{ExactNumber, IsCanonical, Same};
ghost use Rattle.exact.specs.Order.{num_cmp, real_cmp};
ghost use Rattle.qroot2.specs.Text.{number_text};

/// The order of numbers, as a function of two triples, is total and transitive.
pub fn num_order_is_total()
    ensures { IsTotalOrder num_cmp }
{}

/// Of the triples that a `Num` can hold the order is that of the real values.
pub fn num_order_is_of_values()
    ensures { (x y : ExactNumber) → IsCanonical x → IsCanonical y → num_cmp x y ≡ real_cmp x y }
{}

/// What the order calls equal is one triple.
pub fn num_order_is_exact()
    ensures { (x y : ExactNumber) → num_cmp x y ≡ Equal → x ≡ y }
{}

/// Equality of triples that a `Num` can hold, which `==` tests, is equality of values.
pub fn equality_is_of_values()
    ensures { (x y : ExactNumber) → IsCanonical x → IsCanonical y → (x ≡ y) ↔ Same x y }
{}

/// A number has one text, and a text is that of one number, whether it can be held or not.
pub fn text_is_of_one_number()
    ensures { (x y : ExactNumber) → 0 < x.d → 0 < y.d → number_text x ≡ number_text y → x ≡ y }
{}
