//! The neighbours of a crease, and tables of places and heights.
ghost use Rattle.std.specs.Prelude.{◌≡◌, ◌+◌, ◌<◌, ◌≤◌, pos, ◌+ℤ◌, length};
ghost use Rattle.layers.specs.Sectors.{sector_at};
ghost use Rattle.layers.specs.LayerOrder.{place, before as before_of, height};
ghost use Rattle.layers.specs.Stack.{ArePlaces, AreHeights};

use crate::Sector;
use arrayvec::ArrayVec;

/// The sector that ends at crease `i`, of `count` sectors.
pub(crate) fn before(count: usize, i: usize) -> usize
    requires { i < count }
    ensures value { result ≡ before_of count i }
    ensures within { result < count }
{
    if i == 0 { count - 1 } else { i - 1 }
}

/// The angle of sector `i`.
fn angle_of(sectors: &[Sector], i: usize) -> usize
    requires { i < length sectors.now }
    ensures value { result ≡ (sector_at sectors.now i).angle }
    ensures small { result < 256 }
{
    sectors[i].angle as usize
}

/// The place of crease `i`, with 4096 added.
pub(crate) fn place_of(sectors: &[Sector], i: usize) -> usize
    requires within { i ≤ length sectors.now }
    requires few { length sectors.now ≤ 16 }
    ensures { pos result ≡ place sectors.now i +ℤ pos 4096 }
{
    let mut x: usize = 4096;
    for k in 0..i {
        let angle = angle_of(sectors, k);
        if k % 2 == 0 { x += angle } else { x -= angle }
    }
    x
}

/// The places of all creases, each with 4096 added.
pub(crate) fn places_of(sectors: &[Sector]) -> ArrayVec<usize, 17>
    requires few { length sectors.now ≤ 16 }
    ensures { ArePlaces sectors.now result.items }
{
    let mut places = ArrayVec::new();
    for i in 0..sectors.len() + 1 {
        places.push(place_of(sectors, i));
    }
    places
}

/// The height at which a sector stands in the order, or the order's length where it does not.
pub(crate) fn height_of(order: &[u8], sector: u8) -> usize
    ensures { result ≡ height order.now sector }
{
    for (i, k) in order.iter().enumerate() {
        if *k == sector {
            return i;
        }
    }
    order.len()
}

/// The heights of the sectors below `count`.
pub(crate) fn heights_of(order: &[u8], count: usize) -> ArrayVec<usize, 16>
    requires { count ≤ 16 }
    ensures { AreHeights order.now count result.items }
{
    let mut heights = ArrayVec::new();
    for i in 0..count {
        heights.push(height_of(order, i as u8));
    }
    heights
}
