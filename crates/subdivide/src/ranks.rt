//! The places of points among the vertices.

ghost use Rattle.std.specs.Prelude.{◌≡◌, ◌-◌, IfOk, OnOk, length, IsTrue, ◌↔◌, slice_get, Some};
ghost use Rattle.subdivide.specs.Ranks.{AreRanked, AreNumbered, AreOrdered, IsEndedBy};

use crate::found::narrow;
use plane::{Point, is_same_point};
use ports::NoMemory;
use std::alloc::{AllocError, Global};

/// A point by its number.
#[derive(Clone, Copy)]
struct Numbered {
    at: Point,
    number: u32,
}

/// The points with their numbers, ascending.
fn ordered(alloc: Global, points: &[Point]) -> Result<Vec<Numbered>, NoMemory>
    ensures { IfOk result (λ list. AreOrdered points.now list.items) }
{
    let mut list = in_order(alloc, points)?;
    list.sort_unstable_by(|first, second| first.at.cmp(&second.at));
    Ok(list)
}

/// The points with their numbers, in their order.
fn in_order(alloc: Global, points: &[Point]) -> Result<Vec<Numbered>, NoMemory>
    ensures { IfOk result (λ list. AreNumbered points.now (length points.now) list.items) }
{
    let mut list = Vec::with_capacity(alloc, points.len())?;
    for (number, at) in points.iter().enumerate() {
        list.push(Numbered {
            at: *at,
            number: narrow(number)?,
        })?;
    }
    Ok(list)
}

/// The points ascending, each once, and for each number the place of its point.
pub fn ranked(alloc: Global, points: &[Point]) -> Result<(Vec<Point>, Vec<u32>), NoMemory>
    ensures { IfOk result (λ r. AreRanked points.now r.0.items r.1.items) }
{
    let list = ordered(alloc, points)?;
    let mut vertices = Vec::new(alloc);
    let mut ranks = zeros(alloc, points.len())?;
    for point in &list {
        put_last(&mut vertices, &point.at)?;
        ranks[point.number as usize] = narrow(vertices.len() - 1)?;
    }
    Ok((vertices, ranks))
}

/// Puts a point at the end of a list, unless it stands there.
fn put_last(list: &mut Vec<Point>, at: &Point) -> Result<(), AllocError>
    ensures { OnOk result (IsEndedBy at.now list.old.items list.new.items) }
{
    if ends_with(list, at) {
        return Ok(());
    }
    list.push(*at)?;
    Ok(())
}

/// Whether the last point of a list is this one.
fn ends_with(list: &[Point], at: &Point) -> bool
    ensures { IsTrue result ↔ (slice_get list.now (length list.now - 1) ≡ Some at.now) }
{
    match list.last() {
        Some(last) => is_same_point(last, at),
        None => false,
    }
}

/// So many zeros.
fn zeros(alloc: Global, count: usize) -> Result<Vec<u32>, AllocError>
    ensures { IfOk result (λ list. length list.items ≡ count) }
{
    vec![in alloc; 0; count]
}
