//! A crease: a segment with its colour.
use plane::Seg;
use sheet::Colour;
use std::marker::Model;

/// A crease: a segment with its colour.
#[derive(Clone, Copy, Debug, PartialEq, Eq, PartialOrd, Ord, Hash)]
pub struct Crease {
    pub seg: Seg,
    pub colour: Colour,
}

impl Model for Crease {
    ghost use Rattle.sheet.specs.Pattern.{ExactCrease};

    ghost Value = { ExactCrease };

    ghost view = { λ s. record { seg = s.seg; colour = s.colour } };

    ghost inverse = { λ v. record { seg = v.seg; colour = v.colour } };
}
