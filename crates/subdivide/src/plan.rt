//! A step from one pattern to another.

use crate::Live;
use pattern::Pattern;
use std::marker::Model;
use std::snapshot::Snapshot;

/// A step from one pattern to another, neither of which cutting refuses. Contracts see both.
#[derive(Drop)]
pub struct Plan {
    pub(crate) old: Snapshot<Pattern>,
    pub(crate) next: Live,
}

impl Model for Plan {
    ghost use Rattle.subdivide.specs.Live.{ExactPlan};

    ghost Value = { ExactPlan };

    ghost view = { λ s. record { old = s.old.value; new = s.next } };
}
