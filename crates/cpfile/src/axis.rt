//! The near values on an axis.
ghost use Rattle.std.specs.Prelude.{◌≡◌, ◌≤◌, ◌^◌, ℤ, unsigned_abs, IfOk, IfSome};
ghost use Rattle.lattice.specs.Near.{IsAnswer};
ghost use Rattle.decimals.specs.Decimal.{capped};
ghost use Rattle.cpfile.specs.CpAxes.{Places};

use crate::CpWhy;
use lattice::{Lattice, Near, near_value};
use ports::{NoMemory, Stop};
use qroot2::Num;
use std::alloc::Global;
use std::collections::BTreeMap;
use std::marker::Model;

/// An axis of a length from 1 to 8, with the near values of the decimals that were met on it.
#[derive(Drop)]
pub(crate) struct Axis {
    lattice: Lattice,
    length: u8,
    known: BTreeMap<i128, Near>,
}

impl Model for Axis {
    ghost use Rattle.std.specs.Prelude.{◌≤◌, All};
    ghost use Rattle.lattice.specs.Lattice.{IsLattice};
    ghost use Rattle.lattice.specs.Near.{IsAnswer};
    ghost use Rattle.cpfile.specs.CpAxes.{ExactAxis};

    ghost Value = { ExactAxis };

    ghost view = { λ s. record { lattice = s.lattice; length = s.length } };

    ghost invariant = { λ s. (s.length ≤ 8) × IsLattice s.lattice
        × All (λ e. IsAnswer s.lattice s.length e.0 e.1) s.known.entries };
}

impl Axis {
    /// An axis on which no decimal was met.
    pub(crate) fn new(alloc: Global, lattice: &Lattice, length: u8) -> Axis
        requires { length ≤ 8 }
        ensures { result ≡ record { lattice = lattice.now; length = length } }
    {
        // a lattice
        let _d = lattice.d();
        Axis {
            lattice: *lattice,
            length,
            known: BTreeMap::new(alloc),
        }
    }

    /// The near values of a decimal that was met before.
    fn met(&self, units: i128) -> Option<Near>
        requires { unsigned_abs units ≤ 2 ^ 100 }
        ensures { IfSome result (λ near. IsAnswer self.now.lattice self.now.length units near) }
    {
        self.known.get(&units).copied()
    }

    /// The near values of the decimal of so many units of 10^-12. A decimal met before is not searched
    /// again.
    fn near(&mut self, units: i128) -> Result<Near, NoMemory>
        requires { unsigned_abs units ≤ 2 ^ 100 }
        ensures same { self.new ≡ self.old }
        ensures near { IfOk result (λ near. (x : ℤ) → units ≡ capped x
            → IsAnswer self.old.lattice self.old.length x near) }
    {
        if let Some(near) = self.met(units) {
            return Ok(near);
        }
        let near = near_value(&self.lattice, u64::from(self.length), units);
        // the map keeps the other copy
        let answer = near;
        self.known.insert(units, near)?;
        Ok(answer)
    }

    /// The one near value of the decimal in a field.
    ///
    /// # Errors
    ///
    /// NoNear where there is none, TwoNear where there are two and more.
    pub(crate) fn place(&mut self, field: u8, units: i128) -> Result<Num, Stop<CpWhy>>
        requires { unsigned_abs units ≤ 2 ^ 100 }
        ensures same { self.new ≡ self.old }
        ensures place { Places self.old field units result }
    {
        match self.near(units)? {
            Near::One(u) => {
                // in lowest terms
                let _d = u.d();
                Ok(u)
            }
            Near::Nothing => Err(Stop::Why(CpWhy::NoNear { field })),
            Near::Two { first, second } => {
                // in lowest terms
                let _d = (first.d(), second.d());
                Err(Stop::Why(CpWhy::TwoNear {
                    field,
                    first,
                    second,
                }))
            }
        }
    }
}
