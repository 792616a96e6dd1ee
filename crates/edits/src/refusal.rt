//! Why an edit is refused.
ghost use Rattle.std.specs.Prelude.{◌≡◌};
ghost use Rattle.ports.specs.declared.stop.Stop.TheVariants as stop;

use ports::Stop;
use qroot2::Dir;

/// The first rule of an edit that is broken. Each edit has its own rules, in an order of its own.
#[derive(Clone, Copy, Debug, PartialEq, Eq)]
pub enum EditBad {
    /// A point that is given, or the image of an end of a crease, is not in the sheet.
    Outside,
    /// Two points that have to be different are one.
    SamePoint,
    /// None of the sixteen directions leads from one point to another.
    NotDirection,
    /// A segment that would be drawn or changed lies on a side of the sheet.
    OnBorder,
    /// No crease overlaps the segment along which creases would be changed, or none is to be mirrored.
    NoCrease,
    /// Neither a crease nor a side leaves the point in this direction, in units of 22.5 degrees.
    NoRay { dir: Dir },
    /// The angle that has to be halved is an odd number of units of 22.5 degrees.
    OddAngle,
    /// The ray does not lead into the inside of the sheet.
    AtBorder,
    /// A crease leaves the point along the ray already.
    Covered,
    /// The three corners are not those of a right isosceles triangle.
    NoMolecule,
    /// A point that is needed cannot be held: one of its coordinates (a + b√2)/d in lowest terms has
    /// an a or b above 2^48 or a d above 2^20.
    Range { point: PointKind },
    /// The pattern would be the same.
    NoChange,
    /// So many creases, more than 20,000, stood after a drawing, an erasing or a recolouring.
    TooManyCreases { count: u64 },
}

/// A point that an edit makes.
#[derive(Clone, Copy, Debug, PartialEq, Eq)]
pub enum PointKind {
    /// Where a ray meets a crease or a side of the sheet, at its first such point or behind it.
    End,
    /// The image of an end of a crease in a line.
    Image,
    /// The centre of a triangle, where its bisectors meet.
    Incentre,
    /// The foot of the perpendicular from the centre to a side of the triangle.
    Foot,
}

impl From<EditBad> for Stop<EditBad> {
    ghost from_gives = { λ why e. e ≡ stop.Why why };

    fn from(why: EditBad) -> Self {
        Stop::Why(why)
    }
}
