//! The edges between neighbours on a line, by the cuts of the lines at the vertices.

ghost use Rattle.std.specs.Prelude.{◌<◌, All, IfOk, OnOk, length};
ghost use Rattle.chains.specs.Chains.{Ascends};
ghost use Rattle.subdivide.specs.Ranks.{AreCutsRanked};
ghost use Rattle.subdivide.specs.Edges.{cut_cmp, AreStepsOf, IsEdgeAdded};

use crate::Edge;
use crate::found::Cut;
use crate::line::MarkedLine;
use chains::ascending;
use std::alloc::{AllocError, Global};

/// Puts the places of the vertices into cuts in place of the numbers of points, and sorts them.
pub fn rank_cuts(cuts: &mut Vec<Cut>, ranks: &[u32])
    requires { All (λ c. c.point < length ranks.now) cuts.old.items }
    ensures ascends { Ascends cut_cmp cuts.new.items }
    ensures ranked { AreCutsRanked ranks.now cuts.old.items cuts.new.items }
{
    for cut in cuts.iter_mut() {
        cut.point = ranks[cut.point as usize];
    }
    ascending(cuts);
}

/// The edges between neighbours on each line, ascending.
pub fn edges_of(alloc: Global, lines: &[MarkedLine], cuts: &[Cut]) -> Result<Vec<Edge>, AllocError>
    requires { All (λ c. c.line < length lines.now) cuts.now }
    ensures { IfOk result (λ edges. AreStepsOf lines.now cuts.now edges.items) }
{
    let mut edges = Vec::with_capacity(alloc, cuts.len())?;
    for i in 1..cuts.len() {
        add_step(lines, cuts[i - 1], cuts[i], &mut edges)?;
    }
    ascending(&mut edges);
    Ok(edges)
}

/// Adds the edge between two cuts, if they are of one line.
fn add_step(
    lines: &[MarkedLine],
    from: Cut,
    to: Cut,
    edges: &mut Vec<Edge>,
) -> Result<(), AllocError>
    requires { from.line < length lines.now }
    ensures { OnOk result (IsEdgeAdded lines.now from to edges.old.items edges.new.items) }
{
    if from.line != to.line {
        return Ok(());
    }
    edges.push(Edge {
        from: from.point,
        to: to.point,
        kind: lines[from.line as usize].kind,
    })?;
    Ok(())
}
