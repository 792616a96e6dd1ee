//! A pattern is cut in one sweep over its lines: first all points, then the vertices, then the edges.

ghost use Rattle.std.specs.Prelude.{◌≡◌, IfOk, slice_get, Some};
ghost use Rattle.sheet.specs.Pattern.{ExactPattern};
ghost use Rattle.ports.specs.Stops.{Answers};
ghost use Rattle.subdivide.specs.Subdivision.{IsSubdivision};
ghost use Rattle.subdivide.specs.Lines.{AreLinesOf};
ghost use Rattle.subdivide.specs.Found.{IsOut};
ghost use Rattle.subdivide.specs.Whole.{IsAllFound};
ghost use Rattle.subdivide.specs.CutAnswers.{IsCutAnswer};
ghost use Rattle.subdivide.specs.declared.line.MarkedLine.{MarkedLine as ALine};

use crate::edges::{edges_of, rank_cuts};
use crate::found::{Cut, Found, Pair};
use crate::line::MarkedLine;
use crate::lines::lines_of;
use crate::ranks::ranked;
use crate::sweep::sweep;
use crate::{CutBad, Edge, VERTEX_LIMIT};
use pattern::Pattern;
use plane::Point;
use ports::{NoMemory, Stop};
use std::alloc::Global;
use std::marker::Model;

/// A cut pattern: its vertices, ascending, and its edges by places in that list, ascending by
/// `from` and then by `to`.
#[derive(Debug, Drop)]
pub struct Subdivision {
    vertices: Vec<Point>,
    edges: Vec<Edge>,
}

impl Model for Subdivision {
    ghost use Rattle.subdivide.specs.Subdivision.{ExactSubdivision, IsSubdivision};

    ghost Value = { ExactSubdivision };

    ghost view = { λ s. record { vertices = s.vertices.items; edges = s.edges.items } };

    ghost invariant = { λ s. IsSubdivision (record { vertices = s.vertices.items; edges = s.edges.items }) };
}

impl Subdivision {
    fn new(vertices: Vec<Point>, edges: Vec<Edge>) -> Subdivision
        requires { IsSubdivision (record { vertices = vertices.items; edges = edges.items }) }
        ensures { result ≡ record { vertices = vertices.items; edges = edges.items } }
    {
        Subdivision { vertices, edges }
    }

    /// The corners, the ends of creases, and the points where creases and sides cross, each once,
    /// ascending by x and then by y.
    pub fn vertices(&self) -> &[Point]
        ensures value { result.now ≡ self.now.vertices }
        ensures subdivision { IsSubdivision self.now }
    {
        &self.vertices
    }

    /// The edges, ascending by `from` and then by `to`.
    pub fn edges(&self) -> &[Edge]
        ensures value { result.now ≡ self.now.edges }
        ensures subdivision { IsSubdivision self.now }
    {
        &self.edges
    }

    /// An equal subdivision.
    ///
    /// # Errors
    ///
    /// `NoMemory` where memory for the lists runs out.
    pub fn copy(&self, alloc: Global) -> Result<Subdivision, NoMemory>
        ensures { IfOk result (λ cut. cut ≡ self.now) }
    {
        let vertices = Vec::from_slice(alloc, &self.vertices)?;
        let edges = Vec::from_slice(alloc, &self.edges)?;
        Ok(Subdivision::new(vertices, edges))
    }
}

/// The vertices and edges of a pattern that has these lines.
fn cut(alloc: Global, lines: &[MarkedLine]) -> Result<Subdivision, Stop<CutBad>>
    requires { (pattern : ExactPattern) × AreLinesOf pattern lines.now }
    ensures { (pattern : ExactPattern) → AreLinesOf pattern lines.now → Answers (IsCutAnswer pattern) result }
{
    let found = sweep(alloc, lines)?;
    if let Some(pair) = found.least {
        return Err(Stop::Why(out_of_range(lines, pair)));
    }
    if found.full {
        return Err(Stop::Why(CutBad::TooManyVertices));
    }
    let Found { points, cuts, .. } = found;
    assemble(alloc, lines, &points, cuts)
}

/// The refusal of a pair of lines.
fn out_of_range(lines: &[MarkedLine], pair: Pair) -> CutBad
    requires { IsOut lines.now pair }
    ensures { (l m : ALine) → slice_get lines.now pair.first ≡ Some l → slice_get lines.now pair.second ≡ Some m
        → result ≡ CutBad.CrossRange l.seg m.seg }
{
    CutBad::CrossRange {
        first: lines[pair.first as usize].seg,
        second: lines[pair.second as usize].seg,
    }
}

/// The vertices and edges by the points and cuts that were found, if there are not too many.
fn assemble(
    alloc: Global,
    lines: &[MarkedLine],
    points: &[Point],
    cuts: Vec<Cut>,
) -> Result<Subdivision, Stop<CutBad>>
    requires { (pattern : ExactPattern) × IsAllFound pattern lines.now points.now cuts.items }
    ensures { (pattern : ExactPattern) → IsAllFound pattern lines.now points.now cuts.items
        → Answers (IsCutAnswer pattern) result }
{
    let mut cuts = cuts;
    let (vertices, ranks) = ranked(alloc, points)?;
    if vertices.len() > VERTEX_LIMIT {
        return Err(Stop::Why(CutBad::TooManyVertices));
    }
    rank_cuts(&mut cuts, &ranks);
    let edges = edges_of(alloc, lines, &cuts)?;
    Ok(Subdivision::new(vertices, edges))
}

/// Cuts a pattern at all points where its creases and the sides of the sheet cross.
///
/// The lines are taken from left to right, and each is met with those before it that stand near it; then
/// all that is found is sorted.
///
/// # Errors
///
/// `CrossRange` where two creases have exactly one common point and no `Point` can hold it, with
/// the least such pair; `TooManyVertices` where there is no such pair and more vertices than
/// `VERTEX_LIMIT`; `NoMemory` where memory runs out.
pub fn scratch(alloc: Global, pattern: &Pattern) -> Result<Subdivision, Stop<CutBad>>
    ensures { Answers (IsCutAnswer pattern.now) result }
{
    let lines = lines_of(alloc, pattern)?;
    cut(alloc, &lines)
}
