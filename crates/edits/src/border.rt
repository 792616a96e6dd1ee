//! The rays that lead inside the sheet.
ghost use Rattle.std.specs.Prelude.{◌<◌, IsTrue, ◌↔◌};
ghost use Rattle.plane.specs.Walls.{FirstIsPlus, LeadsLeft, LeadsInside};

use plane::{Point, corner, side};
use qroot2::{Dir, Sign};
use sheet::Sheet;

/// Whether the ray from a point of the sheet leads inside at once.
pub(crate) fn leads_inside(sheet: &Sheet, at: &Point, dir: Dir) -> bool
    ensures { IsTrue result ↔ LeadsInside sheet.now at.now dir }
{
    leads_left(at, dir, 0, &corner(sheet, 0, 0))
        && leads_left(at, dir, 4, &corner(sheet, 1, 0))
        && leads_left(at, dir, 8, &corner(sheet, 1, 1))
        && leads_left(at, dir, 12, &corner(sheet, 0, 1))
}

/// Whether a point is on the left of the line through `p` in a direction of this number, or is on
/// that line and the direction `dir` leads to the left.
fn leads_left(at: &Point, dir: Dir, line: u8, p: &Point) -> bool
    requires { line < 16 }
    ensures { IsTrue result ↔ LeadsLeft at.now dir line p.now }
{
    let line = Dir::new(line).unwrap();
    first_is_plus(side(p, line, at), Dir::det(line, dir).sign())
}

/// Whether the first of two signs that is not zero is a plus.
fn first_is_plus(first: Sign, second: Sign) -> bool
    ensures { IsTrue result ↔ FirstIsPlus first second }
{
    match first {
        Sign::Plus => true,
        Sign::Zero => match second {
            Sign::Plus => true,
            Sign::Minus | Sign::Zero => false,
        },
        Sign::Minus => false,
    }
}
