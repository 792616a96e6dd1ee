//! The marks of a point in all directions of segments, in rows.
ghost use Rattle.std.specs.Prelude.{◌≡◌, ◌<◌, ◌≤◌, ◌^◌, ◌%◌};
ghost use Rattle.forms.specs.Marks.{AreMarks, mark_in};

use crate::floor::mark_of;
use crate::lifted::Lifted;
use plane::Point;
use qroot2::Dir;
use std::marker::Model;

/// The marks of a point in the eight directions that lead to later points, each in the row of its
/// direction.
#[derive(Clone, Copy)]
pub struct Marks {
    rows: [i32; 8],
}

impl Model for Marks {
    ghost use Rattle.std.specs.Prelude.{List, ℤ};

    ghost Value = { List ℤ };

    ghost view = { λ s. s.rows };

    ghost inverse = { λ v. record { rows = v } };
}

impl Marks {
    /// The marks of a point at a scale.
    pub fn of(scale: u64, point: &Point) -> Marks
        requires { scale ≤ 2 ^ 32 }
        ensures { AreMarks scale point.now result }
    {
        let lifted = Lifted::of(point);
        Marks {
            rows: [
                mark_of(scale, 0, &lifted),
                mark_of(scale, 1, &lifted),
                mark_of(scale, 2, &lifted),
                mark_of(scale, 3, &lifted),
                mark_of(scale, 4, &lifted),
                mark_of(scale, 13, &lifted),
                mark_of(scale, 14, &lifted),
                mark_of(scale, 15, &lifted),
            ],
        }
    }

    /// The mark in a row.
    pub fn at(&self, row: usize) -> i32
        requires { row < 8 }
        ensures { result ≡ mark_in self.now row }
    {
        self.rows[row]
    }
}

/// The row of a direction: 0 to 4 for the directions 0 to 4, and 5 to 7 for the directions 13 to 15.
pub fn row_of(dir: Dir) -> usize
    ensures value { result ≡ dir % 8 }
    ensures small { result < 8 }
{
    usize::from(dir.number() % 8)
}
