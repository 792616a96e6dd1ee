//! The rays of a vertex.
ghost use Rattle.std.specs.Prelude.{◌≡◌, ◌↔◌, ◌≤◌, length, IsSome, IfSome};
ghost use Rattle.layers.specs.Star.{Ascends, IsStar};
ghost use Rattle.layers.specs.Sectors.{AreSectorsOf};

use crate::{Mark, Sectors};
use arrayvec::ArrayVec;
use qroot2::Dir;
use std::marker::Model;

/// A crease that ends at a vertex: its direction away from the vertex, and its mark.
#[derive(Clone, Copy, Debug, Default, PartialEq, Eq)]
pub struct Ray {
    pub dir: Dir,
    pub mark: Mark,
}

/// The rays of a vertex, with strictly ascending directions; so there are at most sixteen.
#[derive(Drop)]
pub struct Star {
    rays: ArrayVec<Ray, 16>,
}

impl Model for Star {
    ghost use Rattle.std.specs.Prelude.{List};
    ghost use Rattle.layers.specs.Star.{Ray as AnyRay, IsStar};

    ghost Value = { List AnyRay };

    ghost view = { λ s. s.rays.items };

    ghost invariant = { λ s. IsStar s.rays.items };
}

impl Star {
    /// The star of these rays, or None where their directions do not ascend strictly.
    pub fn new(rays: &[Ray]) -> Option<Star>
        ensures ascends { IsSome result ↔ Ascends rays.now }
        ensures same { IfSome result (λ star. star ≡ rays.now) }
    {
        let mut kept = ArrayVec::new();
        let mut least = 0;
        for ray in rays {
            let number = ray.dir.number();
            if number < least {
                return None;
            }
            kept.push(*ray);
            least = number + 1;
        }
        Some(Star { rays: kept })
    }

    /// The rays, counterclockwise from the one of least direction on.
    pub fn rays(&self) -> &[Ray]
        ensures value { result.now ≡ self.now }
        ensures star { IsStar self.now }
        ensures few { length self.now ≤ 16 }
    {
        self.rays.as_slice()
    }
}

/// The sectors of a star: sector i runs from ray i counterclockwise to the next ray, the last one
/// to ray 0. With one ray the one sector has angle 16.
pub fn sectors(star: &Star) -> Sectors
    ensures { AreSectorsOf star.now result }
{
    Sectors::between(star.rays())
}
