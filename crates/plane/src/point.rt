//! Points of the plane.
use qroot2::Num;
use std::marker::Model;

/// A point of the plane. Points are ordered by x, and then by y.
#[derive(Clone, Copy, Debug, PartialEq, Eq, PartialOrd, Ord, Hash)]
pub struct Point {
    pub x: Num,
    pub y: Num,
}

impl Model for Point {
    ghost use Rattle.exact.specs.Plane.{ExactPoint};

    ghost Value = { ExactPoint };

    ghost view = { λ s. record { x = s.x; y = s.y } };

    ghost inverse = { λ v. record { x = v.x; y = v.y } };
}
