//! The creases that leave each vertex, read off the edges in one walk.

ghost use Rattle.std.specs.Prelude.{◌≡◌, ◌≢◌, ℕ, ◌<◌, IfOk, IfSome, IsNone, length, slice_index_or};
ghost use Rattle.exact.specs.Plane.{ExactSegment, IsSegment, DirOf};
ghost use Rattle.sheet.specs.Pattern.{ExactPattern};
ghost use Rattle.sheet.specs.declared.mark.Mark.{Mark as AnyMark};
ghost use Rattle.layers.specs.declared.star.Ray.{Ray as AnyRay};
ghost use Rattle.subdivide.specs.Star.{marked_kind};
ghost use Rattle.subdivide.specs.Live.{IsCutAs};
ghost use Rattle.subdivide.specs.Fans.{HasRay, AreRaysOf, IsWithRay, IsJoined, IsNoted, AreFans};
ghost use Rattle.subdivide.specs.declared.stars.Fan.{Fan as AnyFan};

use crate::{Edge, EdgeKind, Subdivision};
use arrayvec::ArrayVec;
use layers::{Ray, Star};
use plane::{Point, Seg};
use ports::NoMemory;
use qroot2::Dir;
use sheet::Mark;
use std::alloc::{AllocError, Global};

/// The creases that leave a vertex: at each of the sixteen directions the mark of the one that does, if there
/// is one.
#[derive(Clone, Copy)]
pub struct Fan {
    marks: [Option<Mark>; 16],
}

impl Fan {
    /// The fan without rays.
    pub fn empty() -> Fan
        ensures { (r : AnyRay) → ¬ HasRay result r }
    {
        Fan { marks: [None; 16] }
    }

    /// The fan with one more ray. Where there was one in this direction, it goes.
    pub fn with(&self, ray: Ray) -> Fan
        ensures { IsWithRay self.now ray result }
    {
        let mut marks = self.marks;
        marks[ray.dir.number() as usize] = Some(ray.mark);
        Fan { marks }
    }

    /// The rays, ascending by direction.
    pub fn star(&self) -> Star
        ensures { AreRaysOf self.now result }
    {
        let mut rays: ArrayVec<Ray, 16> = ArrayVec::new();
        for (k, mark) in self.marks.iter().enumerate() {
            if let Some(mark) = mark {
                rays.push(Ray {
                    dir: Dir::new(k as u8).unwrap(),
                    mark: *mark,
                });
            }
        }
        Star::new(rays.as_slice()).unwrap()
    }
}

/// The mark of the creases that an edge of this kind lies on, or None where they do not fold.
fn mark_of(kind: EdgeKind) -> Option<Mark>
    ensures some { IfSome result (λ mark. kind ≡ marked_kind mark) }
    ensures none { IsNone result → (mark : AnyMark) → kind ≢ marked_kind mark }
{
    match kind {
        EdgeKind::M => Some(Mark::M),
        EdgeKind::V => Some(Mark::V),
        EdgeKind::B | EdgeKind::A => None,
    }
}

/// The direction from one end of a segment to the other.
fn direction(from: &Point, to: &Point) -> Dir
    requires { let s : ExactSegment = record { p = from.now; q = to.now } in IsSegment s }
    ensures leads { DirOf from.now to.now result }
    ensures small { result < 16 }
    ensures only { (k : ℕ) → k < 16 → DirOf from.now to.now k → k ≡ result }
{
    match Seg::new(*from, *to) {
        Ok(seg) => seg.dir(),
        Err(_) => unreachable!(),
    }
}

/// Notes the rays that a folding edge gives to the vertices at its ends.
fn note(vertices: &[Point], edge: &Edge, mark: Mark, fans: &mut Vec<Fan>)
    requires joined { IsJoined vertices.now edge.now }
    requires long { length fans.old.items ≡ length vertices.now }
    requires mark { edge.now.kind ≡ marked_kind mark }
    ensures { IsNoted vertices.now edge.now fans.old.items fans.new.items }
{
    let from = edge.from as usize;
    let to = edge.to as usize;
    let dir = direction(&vertices[from], &vertices[to]);
    let back = dir.opposite();
    fans[from] = fans[from].with(Ray { dir, mark });
    fans[to] = fans[to].with(Ray { dir: back, mark });
}

/// The creases that leave each vertex of a cut pattern, in the order of the vertices.
pub fn fans_of(alloc: Global, cut: &Subdivision) -> Result<Vec<Fan>, NoMemory>
    requires { (pattern : ExactPattern) × IsCutAs pattern cut.now }
    ensures { (pattern : ExactPattern) → IsCutAs pattern cut.now
        → IfOk result (λ fans. AreFans pattern cut.now.vertices fans.items) }
{
    let vertices = cut.vertices();
    let mut fans = without_rays(alloc, vertices)?;
    for edge in cut.edges() {
        if let Some(mark) = mark_of(edge.kind) {
            note(vertices, edge, mark, &mut fans);
        }
    }
    Ok(fans)
}

/// A fan without rays for each vertex.
fn without_rays(alloc: Global, vertices: &[Point]) -> Result<Vec<Fan>, AllocError>
    ensures long { IfOk result (λ fans. length fans.items ≡ length vertices.now) }
    ensures none { IfOk result (λ fans. (i : ℕ) (d : AnyFan) (r : AnyRay) → i < length vertices.now
        → ¬ HasRay (slice_index_or fans.items i d) r) }
{
    vertices.iter().map(|_| Fan::empty()).collect(alloc)
}
