//! Laws of near values. Each is a theorem: a function that does nothing, whose clause says what holds.
ghost use Rattle.std.specs.Prelude.{◌≤◌, ℕ, ◌^◌, ◌<◌, ℤ, unsigned_abs};
ghost use Rattle.exact.specs.Number.{ExactNumber, Same};
ghost use Rattle.lattice.specs.Lattice.{Measures, IsLattice, IsNearValue, usual};

/// With the usual lattice no decimal has two near values, on no axis of length up to 8.
pub fn default_has_no_two()
    ensures { (m : ℕ) → (x : ℤ) → (u v : ExactNumber) → m ≤ 8 → IsNearValue usual m x u
        → IsNearValue usual m x v → Same u v }
{}

/// A decimal of more than 2^60 units has no near value.
pub fn nothing_is_near_off_the_axis()
    ensures { (l : Measures) → (m : ℕ) → (x : ℤ) → (u : ExactNumber) → IsLattice l → m ≤ 8
        → 2 ^ 60 < unsigned_abs x → ¬ IsNearValue l m x u }
{}
