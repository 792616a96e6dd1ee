//! Points whose coordinates are decimals.
ghost use Rattle.std.specs.Prelude.{◌≡◌, pos, ◌≤◌, ◌^◌, unsigned_abs, ◌+ℤ◌, length, IfOk};
ghost use Rattle.exact.specs.Number.{whole, mul};
ghost use Rattle.exact.specs.Floor.{IsFloor};
ghost use Rattle.decimals.specs.DecimalPoint.{IsDecimalPoint, AreDecimalPoints};

use plane::Point;
use ports::NoMemory;
use qroot2::Num;
use std::alloc::Global;

/// A point by its coordinates in units of 10^-12.
#[derive(Clone, Copy, Debug, PartialEq, Eq)]
pub struct DecimalPoint {
    pub x: i128,
    pub y: i128,
}

/// The points, one for one, with each coordinate cut to a whole number of units: the whole part
/// of `scale` times the coordinate, less `origin`. The scale is at most 400·10^12, and so is the
/// origin.
///
/// # Errors
///
/// `NoMemory` where memory for the list runs out.
pub fn decimal_points(
    alloc: Global,
    points: &[Point],
    scale: u64,
    origin: u64,
) -> Result<Vec<DecimalPoint>, NoMemory>
    requires scale { scale ≤ 400000000000000 }
    requires origin { origin ≤ 400000000000000 }
    ensures points { IfOk result (λ list. AreDecimalPoints scale origin points.now list.items) }
    ensures length { IfOk result (λ list. length list.items ≡ length points.now) }
{
    let mut list = Vec::new(alloc);
    for point in points {
        list.push(decimal_point(point, scale, origin))?;
    }
    Ok(list)
}

fn decimal_point(point: &Point, scale: u64, origin: u64) -> DecimalPoint
    requires scale { scale ≤ 400000000000000 }
    requires origin { origin ≤ 400000000000000 }
    ensures { IsDecimalPoint scale origin point.now result }
{
    DecimalPoint {
        x: units(&point.x, scale, origin),
        y: units(&point.y, scale, origin),
    }
}

fn units(coordinate: &Num, scale: u64, origin: u64) -> i128
    requires scale { scale ≤ 400000000000000 }
    requires origin { origin ≤ 400000000000000 }
    ensures { IsFloor (mul (whole scale) coordinate.now) (result +ℤ pos origin) }
{
    floor(coordinate, scale) - i128::from(origin)
}

/// The whole part of a multiple, and how large it can be.
fn floor(number: &Num, scale: u64) -> i128
    requires { scale ≤ 400000000000000 }
    ensures floor { IsFloor (mul (whole scale) number.now) result }
    ensures bound { unsigned_abs result ≤ 2 ^ 99 }
{
    let _canonical = number.d();
    number.floor_scaled(scale)
}
