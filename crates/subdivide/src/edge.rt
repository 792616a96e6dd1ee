//! What a cut pattern is made of beside its vertices, and why a pattern is not cut.

use plane::Seg;

/// What an edge lies on: the border of the sheet, or a mountain, a valley or an auxiliary crease.
#[derive(Clone, Copy, Debug, PartialEq, Eq, PartialOrd, Ord, Hash)]
pub enum EdgeKind {
    B,
    M,
    V,
    A,
}

/// An edge between two vertices, by their places in the ascending list of all, counted from 0.
/// `from` is less than `to`.
#[derive(Clone, Copy, Debug, PartialEq, Eq, PartialOrd, Ord, Hash)]
pub struct Edge {
    pub from: u32,
    pub to: u32,
    pub kind: EdgeKind,
}

/// As many vertices may a subdivision have.
pub const VERTEX_LIMIT: usize = 100_000;

/// Why a pattern is not cut.
#[derive(Clone, Copy, Debug, PartialEq, Eq)]
pub enum CutBad {
    /// Two creases, the first before the second, have exactly one common point, and no `Point` can
    /// hold it. Of all such pairs it is the least, by the first crease and then by the second.
    CrossRange { first: Seg, second: Seg },
    /// There is no such pair, and there are more vertices than `VERTEX_LIMIT`.
    TooManyVertices,
}
