//! The sectors round a vertex.
ghost use Rattle.std.specs.Prelude.{◌≡◌, ◌<◌, ◌≤◌, ◌↔◌, length, IsTrue};
ghost use Rattle.layers.specs.Star.{IsStar};
ghost use Rattle.layers.specs.Sectors.{IsSector, AreSectorsOf, AreSectors, behind as behind_of};
ghost use Rattle.layers.specs.LayerOrder.{ClosesUp};

use crate::rules::closes_up;
use crate::{Mark, Ray};
use arrayvec::ArrayVec;
use qroot2::Dir;
use std::marker::Model;

/// A sector between two neighbouring creases: the direction of the crease at which it begins, that
/// crease's mark, and its angle counterclockwise, from 1 to 16 units of 22.5 degrees.
#[derive(Clone, Copy, Debug, Default, PartialEq, Eq)]
pub struct Sector {
    pub first: Dir,
    pub mark: Mark,
    pub angle: u8,
}

/// The sectors of a star, counterclockwise from the ray of least direction on.
#[derive(Drop)]
pub struct Sectors {
    sectors: ArrayVec<Sector, 16>,
}

impl Model for Sectors {
    ghost use Rattle.std.specs.Prelude.{List};
    ghost use Rattle.layers.specs.Sectors.{Sector as AnySector, AreSectors};

    ghost Value = { List AnySector };

    ghost view = { λ s. s.sectors.items };

    ghost invariant = { λ s. AreSectors s.sectors.items };
}

/// The place behind place `i` in a cyclic list of `count`.
fn behind(count: usize, i: usize) -> usize
    requires { i < count }
    ensures value { result ≡ behind_of count i }
    ensures within { result < count }
{
    if i + 1 == count { 0 } else { i + 1 }
}

/// The sector that begins at ray `i`.
fn sector_from(rays: &[Ray], i: usize) -> Sector
    requires within { i < length rays.now }
    requires star { IsStar rays.now }
    requires few { length rays.now ≤ 16 }
    ensures { IsSector rays.now i result }
{
    let ray = rays[i];
    let next = rays[behind(rays.len(), i)].dir.number();
    Sector {
        first: ray.dir,
        mark: ray.mark,
        angle: (next + 15 - ray.dir.number()) % 16 + 1,
    }
}

impl Sectors {
    /// The sectors between the rays of a star.
    pub(crate) fn between(rays: &[Ray]) -> Sectors
        requires star { IsStar rays.now }
        requires few { length rays.now ≤ 16 }
        ensures { AreSectorsOf rays.now result }
    {
        let mut sectors = ArrayVec::new();
        for i in 0..rays.len() {
            sectors.push(sector_from(rays, i));
        }
        Sectors { sectors }
    }

    /// The sectors, from the one that begins at the least direction on.
    pub fn list(&self) -> &[Sector]
        ensures value { result.now ≡ self.now }
        ensures of_a_star { AreSectors self.now }
        ensures few { length self.now ≤ 16 }
    {
        self.sectors.as_slice()
    }

    /// Whether the number of sectors is even and at least two, and the angles of the even sectors
    /// have the same sum as those of the odd ones: the folded sectors then close (Kawasaki's
    /// condition; Hull, Origametry).
    pub fn closes_up(&self) -> bool
        ensures { IsTrue result ↔ ClosesUp self.now }
    {
        closes_up(self.list())
    }
}
