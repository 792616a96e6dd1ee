//! The nine edits of a crease pattern.
use pattern::Crease;
use plane::Point;
use ports::Listed;
use qroot2::Dir;
use sheet::{Colour, Mark};

/// A change of a crease pattern. To draw a segment in a colour over a pattern is to put it in and
/// to leave, of each crease that it overlaps, only the largest parts outside it. Coordinates are
/// those of the sheet, directions are in units of 22.5 degrees, counterclockwise from the x axis.
///
/// Each entry names its rules in the order in which they are tested. Every edit then has two more:
/// `TooManyCreases`, after each drawing, and `NoChange`.
#[derive(Drop)]
pub enum Edit {
    /// Draws the segment between two points, given in either order. Rules: `Outside`, `SamePoint`,
    /// `NotDirection`, `OnBorder`.
    Draw {
        colour: Colour,
        from: Point,
        to: Point,
    },
    /// Takes away what creases have in common with the segment between two points. Rules: those of
    /// drawing, then `NoCrease`.
    Erase {
        from: Point,
        to: Point,
    },
    /// Gives what creases have in common with the segment between two points a new colour. A crease
    /// that has this colour already stays whole. Rules: those of erasing.
    Recolour {
        colour: Colour,
        from: Point,
        to: Point,
    },
    /// Makes each mountain a valley and each valley a mountain. It has no rules of its own.
    Flip,
    /// Draws from a point in a direction to the first other point on a crease or a side of the sheet.
    /// Rules: `Outside`; `AtBorder`; `Covered`; `Range`, where the ray in the sheet meets a crease or
    /// a side in exactly one point that cannot be held, also behind the first.
    Extend {
        colour: Colour,
        at: Point,
        dir: Dir,
    },
    /// Extends from a point in the direction halfway counterclockwise from the first direction to
    /// the second, a full turn where they are one. In both, a crease or a side has to leave the point.
    /// Rules: `Outside`; `NoRay`, for the first direction and then for the second; `OddAngle`; then
    /// those of extending from `AtBorder` on.
    Bisect {
        colour: Colour,
        at: Point,
        first: Dir,
        second: Dir,
    },
    /// Draws the images, in the line through a point in a direction, of all creases that have no
    /// point on the right of the line and do not lie on it. Rules: `Outside`; `NoCrease`; then for
    /// each of these creases, ascending, `Range`, `Outside` and `OnBorder` of its image.
    Mirror {
        at: Point,
        dir: Dir,
    },
    /// Folds a right isosceles triangle into a rabbit ear: draws from its corners to its incentre
    /// with the mark, and from the incentre to its foot on the side from `p` to `q` with the other
    /// mark. Rules: `Outside`, `SamePoint`, `NotDirection`, `NoMolecule`, `Range` of the incentre,
    /// `Range` of the foot.
    RabbitEar {
        mark: Mark,
        p: Point,
        q: Point,
        r: Point,
    },
    /// Draws these creases, one after another. Rules, for each of them before one is drawn:
    /// `Outside`, `OnBorder`.
    Lines(Listed<Crease>),
}
