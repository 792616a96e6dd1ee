//! What the coordinates of CP text are measured by.
ghost use Rattle.std.specs.Prelude.{◌≡◌, IfSome, IsNone, ◌↔◌};
ghost use Rattle.lattice.specs.Lattice.{IsLattice};

use std::marker::Model;

/// The numbers (a + b √2)/d from 0 to 1 with a and b of at most k in size, and a tolerance in
/// millionths.
#[derive(Clone, Copy, Debug, PartialEq, Eq)]
pub struct Lattice {
    d: u32,
    k: u32,
    tol: u32,
}

impl Model for Lattice {
    ghost use Rattle.lattice.specs.Lattice.{Measures, IsLattice};

    ghost Value = { Measures };

    ghost view = { λ s. record { d = s.d; k = s.k; tol = s.tol } };

    ghost invariant = { λ s. IsLattice (record { d = s.d; k = s.k; tol = s.tol }) };

    ghost inverse = { λ v. record { d = v.d; k = v.k; tol = v.tol } };
}

impl Lattice {
    /// The lattice, or None where d is not from 1 to 1024, k not from d to 1024, or the tolerance
    /// not from 1 to 100,000.
    pub fn new(d: u32, k: u32, tol: u32) -> Option<Lattice>
        ensures some { IfSome result (λ l. (l ≡ record { d = d; k = k; tol = tol }) × IsLattice l) }
        ensures none { IsNone result ↔ (¬ IsLattice (record { d = d; k = k; tol = tol })) }
    {
        if 1 <= d && d <= 1024 && d <= k && k <= 1024 && 1 <= tol && tol <= 100_000 {
            Some(Lattice { d, k, tol })
        } else {
            None
        }
    }

    /// The denominator.
    pub fn d(&self) -> u32
        ensures value { result ≡ self.now.d }
        ensures lattice { IsLattice self.now }
    {
        self.d
    }

    /// The bound of a and b.
    pub fn k(&self) -> u32
        ensures value { result ≡ self.now.k }
        ensures lattice { IsLattice self.now }
    {
        self.k
    }

    /// The tolerance, in millionths.
    pub fn tol(&self) -> u32
        ensures value { result ≡ self.now.tol }
        ensures lattice { IsLattice self.now }
    {
        self.tol
    }
}
