//! Laws of cutting, of chains and of the lines of a pattern.
ghost use Rattle.std.specs.Prelude.{◌≡◌, List, All, AllPairs, Contains};
ghost use Rattle.exact.specs.Plane.{ExactPoint, ExactSegment, SamePoint, Before, IsPointCanonical};
ghost use Rattle.sheet.specs.Pattern.{ExactPattern, IsPattern};
ghost use Rattle.subdivide.specs.Subdivision.{AreVertices, AreEdges, EdgePlaces, IsLine, IsVertex, Answer};
ghost use Rattle.subdivide.specs.Subdivision.{CutOf};
ghost use Rattle.layers.specs.declared.star.Ray.{Ray as AnyRay};
ghost use Rattle.subdivide.specs.Star.{StarOf};
ghost use Rattle.subdivide.specs.Chain.{AreLines, AreSteps, IsChain, InChain};

/// The sides and creases of a pattern do not overlap.
pub fn patterns_give_lines()
    ensures { (pattern : ExactPattern) → IsPattern pattern → AreLines pattern }
{}

/// What stands in the chains of all lines, ascending, are the vertices.
pub fn chains_give_vertices()
    ensures { (pattern : ExactPattern) (vs : List ExactPoint)
        → AreLines pattern → AllPairs Before vs → All IsPointCanonical vs → All (InChain pattern) vs
        → ((s : ExactSegment) → IsLine pattern s → (chain : List ExactPoint) × IsChain pattern s chain
        × All (Contains vs) chain)
        → AreVertices pattern vs }
{}

/// The neighbours in the chains of all lines are the edges.
pub fn chains_give_edges()
    ensures { (pattern : ExactPattern) (vs : List ExactPoint) (es : List EdgePlaces)
        → AreLines pattern → AreVertices pattern vs → AreSteps pattern vs es → AreEdges pattern vs es }
{}

/// Cutting a pattern has one answer.
pub fn cut_is_one()
    ensures { (pattern : ExactPattern) (x y : Answer)
        → IsPattern pattern → CutOf pattern x → CutOf pattern y → x ≡ y }
{}

/// A vertex has one star.
pub fn star_is_one()
    ensures { (pattern : ExactPattern) (v : ExactPoint) (rays others : List AnyRay) → StarOf pattern v rays
        → StarOf pattern v others → rays ≡ others }
{}

/// A vertex and its star are those of a point, whatever numbers the point is given by.
pub fn star_is_of_the_point()
    ensures { (pattern : ExactPattern) (v w : ExactPoint) (rays : List AnyRay) → IsPattern pattern
        → SamePoint v w
        → IsVertex pattern v → StarOf pattern v rays → IsVertex pattern w × StarOf pattern w rays }
{}
