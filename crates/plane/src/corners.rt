//! The corners of the sheet, and its four sides.
ghost use Rattle.std.specs.Prelude.{◌≡◌, ◌≤◌};
ghost use Rattle.exact.specs.Number.{whole as whole_number};
ghost use Rattle.sheet.specs.Sheet.{corner as corner_of, end_at, sides};

use crate::segment::joined;
use crate::{Point, Seg, Sheet};
use qroot2::Num;

/// The sides of the sheet, ascending: left, low, high, right.
pub fn sheet_sides(sheet: &Sheet) -> [Seg; 4]
    ensures { result ≡ sides sheet.now }
{
    // from 1 to 8
    let _width = sheet.w();
    [
        joined(corner(sheet, 0, 0), corner(sheet, 0, 1)),
        joined(corner(sheet, 0, 0), corner(sheet, 1, 0)),
        joined(corner(sheet, 0, 1), corner(sheet, 1, 1)),
        joined(corner(sheet, 1, 0), corner(sheet, 1, 1)),
    ]
}

/// The corner of the sheet at the left (x is 0) or the right (1), and low (y is 0) or high (1).
pub fn corner(sheet: &Sheet, x: u8, y: u8) -> Point
    requires x { x ≤ 1 }
    requires y { y ≤ 1 }
    ensures { result ≡ corner_of sheet.now x y }
{
    Point {
        x: whole(end(x, sheet.w())),
        y: whole(end(y, sheet.h())),
    }
}

/// Where a length begins (0), or where it ends (1).
fn end(i: u8, length: u8) -> u8
    requires i { i ≤ 1 }
    requires length { length ≤ 8 }
    ensures value { result ≡ end_at i length }
    ensures small { result ≤ 8 }
{
    if i == 0 { 0 } else { length }
}

/// A whole number that is no larger than a sheet.
fn whole(n: u8) -> Num
    requires { n ≤ 8 }
    ensures { result ≡ whole_number n }
{
    Num::new(i128::from(n), 0, 1).unwrap()
}
