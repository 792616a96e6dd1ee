//! Whether an order of the sectors is a layer order.
ghost use Rattle.std.specs.Prelude.{◌<◌, ◌≤◌, ◌↔◌, ℕ, length, IsTrue};
ghost use Rattle.layers.specs.LayerOrder.{before as before_of, height, Between, AgreesAt, ClosesUp};
ghost use Rattle.layers.specs.LayerOrder.{HasEachOnce, AgreesWithMarks, CrossesNoCrease, NestsCreases};
ghost use Rattle.layers.specs.LayerOrder.{IsLayerOrder};
ghost use Rattle.layers.specs.Sectors.{sector_at};
ghost use Rattle.layers.specs.Stack.{ArePlaces, AreHeights};
ghost use Rattle.layers.specs.Rows.{IsClear, ClearsAll, IsNested, NestsAll};

use crate::tables::{before, height_of, heights_of, place_of, places_of};
use crate::{Mark, Order, Sector, Sectors};

/// Whether `a` is strictly between the two others.
fn between(a: usize, b: usize, c: usize) -> bool
    ensures { IsTrue result ↔ Between a b c }
{
    (b < a && a < c) || (c < a && a < b)
}

/// Rule 1: an even number of sectors, at least two, and a zigzag that closes.
pub(crate) fn closes_up(sectors: &[Sector]) -> bool
    requires few { length sectors.now ≤ 16 }
    ensures { IsTrue result ↔ ClosesUp sectors.now }
{
    let count = sectors.len();
    count % 2 == 0 && count >= 2 && place_of(sectors, count) == 4096
}

/// Whether each of the numbers below `count` stands in the order.
fn all_stand(order: &[u8], count: usize) -> bool
    requires { count ≤ 16 }
    ensures { IsTrue result ↔ ((i : ℕ) → i < count → height order.now i < length order.now) }
{
    for i in 0..count {
        if height_of(order, i as u8) >= order.len() {
            return false;
        }
    }
    true
}

/// Rule 2: each sector number once.
fn has_each_once(sectors: &[Sector], order: &[u8]) -> bool
    requires few { length sectors.now ≤ 16 }
    ensures { IsTrue result ↔ HasEachOnce sectors.now order.now }
{
    order.len() == sectors.len() && all_stand(order, sectors.len())
}

/// Whether two neighbouring sectors at these heights agree with the mark between them; `a` is the
/// number of the first.
fn agrees(mark: Mark, a: usize, first: usize, second: usize) -> bool
    ensures { IsTrue result ↔ AgreesAt mark a first second }
{
    if (a % 2 == 0) == (mark == Mark::V) {
        first < second
    } else {
        second < first
    }
}

/// Whether crease `i` agrees with its mark.
fn crease_agrees(sectors: &[Sector], order: &[u8], heights: &[usize], i: usize) -> bool
    requires heights { AreHeights order.now (length sectors.now) heights.now }
    requires i { i < length sectors.now }
    ensures { IsTrue result
        ↔ AgreesAt (sector_at sectors.now i).mark (before_of (length sectors.now) i)
        (height order.now (before_of (length sectors.now) i)) (height order.now i) }
{
    let a = before(sectors.len(), i);
    let first = heights[a];
    let second = heights[i];
    agrees(sectors[i].mark, a, first, second)
}

/// Rule 3: each crease lies between its two sectors as its mark says.
fn agrees_with_marks(sectors: &[Sector], order: &[u8], heights: &[usize]) -> bool
    requires heights { AreHeights order.now (length sectors.now) heights.now }
    ensures { IsTrue result ↔ AgreesWithMarks sectors.now order.now }
{
    for i in 0..sectors.len() {
        if !crease_agrees(sectors, order, heights, i) {
            return false;
        }
    }
    true
}

/// That not both hold, said of six numbers.
fn clear(y: usize, x: usize, z: usize, at: usize, low: usize, high: usize) -> bool
    ensures { IsTrue result ↔ (Between y x z → Between at low high → ⊥) }
{
    !(between(y, x, z) && between(at, low, high))
}

/// Rule 4 for crease `i` and sector `j`.
fn is_clear(
    sectors: &[Sector],
    order: &[u8],
    heights: &[usize],
    places: &[usize],
    i: usize,
    j: usize,
) -> bool
    requires heights { AreHeights order.now (length sectors.now) heights.now }
    requires places { ArePlaces sectors.now places.now }
    requires few { length sectors.now ≤ 16 }
    requires i { i < length sectors.now }
    requires j { j < length sectors.now }
    ensures { IsTrue result ↔ IsClear sectors.now order.now i j }
{
    let y = places[i];
    let x = places[j];
    let z = places[j + 1];
    let own = heights[j];
    let low = heights[before(sectors.len(), i)];
    let high = heights[i];
    clear(y, x, z, own, low, high)
}

/// Rule 4 for crease `i` and all sectors.
fn clears_all(
    sectors: &[Sector],
    order: &[u8],
    heights: &[usize],
    places: &[usize],
    i: usize,
) -> bool
    requires heights { AreHeights order.now (length sectors.now) heights.now }
    requires places { ArePlaces sectors.now places.now }
    requires few { length sectors.now ≤ 16 }
    requires i { i < length sectors.now }
    ensures { IsTrue result ↔ ClearsAll sectors.now order.now i }
{
    for j in 0..sectors.len() {
        if !is_clear(sectors, order, heights, places, i, j) {
            return false;
        }
    }
    true
}

/// Rule 4: no sector that goes across the place of a crease lies between that crease's two sectors.
fn crosses_no_crease(sectors: &[Sector], order: &[u8], heights: &[usize], places: &[usize]) -> bool
    requires heights { AreHeights order.now (length sectors.now) heights.now }
    requires places { ArePlaces sectors.now places.now }
    requires few { length sectors.now ≤ 16 }
    ensures { IsTrue result ↔ CrossesNoCrease sectors.now order.now }
{
    for i in 0..sectors.len() {
        if !clears_all(sectors, order, heights, places, i) {
            return false;
        }
    }
    true
}

/// Both or none, where it applies.
fn both(applies: bool, first: bool, second: bool) -> bool
    ensures { IsTrue result ↔ (IsTrue applies → (IsTrue first ↔ IsTrue second)) }
{
    !applies || first == second
}

/// Rule 5 for the creases `i` and `j`.
fn is_nested(
    sectors: &[Sector],
    order: &[u8],
    heights: &[usize],
    places: &[usize],
    i: usize,
    j: usize,
) -> bool
    requires heights { AreHeights order.now (length sectors.now) heights.now }
    requires places { ArePlaces sectors.now places.now }
    requires few { length sectors.now ≤ 16 }
    requires i { i < length sectors.now }
    requires j { j < length sectors.now }
    ensures { IsTrue result ↔ IsNested sectors.now order.now i j }
{
    let y = places[i];
    let x = places[j];
    let own = heights[before(sectors.len(), j)];
    let other = heights[j];
    let low = heights[before(sectors.len(), i)];
    let high = heights[i];
    let applies = i != j && y == x && i % 2 == j % 2;
    both(applies, between(own, low, high), between(other, low, high))
}

/// Rule 5 for crease `i` and all creases.
fn nests_all(
    sectors: &[Sector],
    order: &[u8],
    heights: &[usize],
    places: &[usize],
    i: usize,
) -> bool
    requires heights { AreHeights order.now (length sectors.now) heights.now }
    requires places { ArePlaces sectors.now places.now }
    requires few { length sectors.now ≤ 16 }
    requires i { i < length sectors.now }
    ensures { IsTrue result ↔ NestsAll sectors.now order.now i }
{
    for j in 0..sectors.len() {
        if !is_nested(sectors, order, heights, places, i, j) {
            return false;
        }
    }
    true
}

/// Rule 5: creases at one place nest.
fn nests_creases(sectors: &[Sector], order: &[u8], heights: &[usize], places: &[usize]) -> bool
    requires heights { AreHeights order.now (length sectors.now) heights.now }
    requires places { ArePlaces sectors.now places.now }
    requires few { length sectors.now ≤ 16 }
    ensures { IsTrue result ↔ NestsCreases sectors.now order.now }
{
    for i in 0..sectors.len() {
        if !nests_all(sectors, order, heights, places, i) {
            return false;
        }
    }
    true
}

/// The five rules, one after another.
fn keeps_rules(sectors: &[Sector], order: &[u8]) -> bool
    requires few { length sectors.now ≤ 16 }
    ensures { IsTrue result ↔ IsLayerOrder sectors.now order.now }
{
    if !closes_up(sectors) || !has_each_once(sectors, order) {
        return false;
    }
    let places = places_of(sectors);
    let heights = heights_of(order, sectors.len());
    agrees_with_marks(sectors, order, heights.as_slice())
        && crosses_no_crease(sectors, order, heights.as_slice(), places.as_slice())
        && nests_creases(sectors, order, heights.as_slice(), places.as_slice())
}

/// Whether the order is a layer order of the sectors, by the five rules of `specs/LayerOrder.antt`:
/// the zigzag of the sectors closes, each sector is in the order once, the creases agree with their
/// marks, no sector crosses a crease, and creases at one place nest. After Hull, Origametry, and
/// Demaine and O'Rourke, Geometric Folding Algorithms, chapter 12.
pub fn is_order(sectors: &Sectors, order: &Order) -> bool
    ensures { IsTrue result ↔ IsLayerOrder sectors.now order.now }
{
    keeps_rules(sectors.list(), order.numbers())
}
