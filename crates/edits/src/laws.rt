//! Laws of the edits. Each is a theorem: a function that does nothing, whose clause says what holds.
ghost use Rattle.std.specs.Prelude.{◌≡◌, ◌≤◌, ◌⊎◌, List, length, Result};
ghost use Rattle.exact.specs.Plane.{ExactSegment, SamePoint, Before, IsSegment, Overlap};
ghost use Rattle.sheet.specs.Pattern.{ExactCrease, ExactPattern, IsKey, IsPattern, crease_limit};
ghost use Rattle.sheet.specs.declared.colour.Colour.{Colour as AnyColour};
ghost use Rattle.edits.specs.Parts.{IsPart};
ghost use Rattle.edits.specs.CreaseSet.{AreCreases};
ghost use Rattle.edits.specs.Drafts.{with_creases};
ghost use Rattle.edits.specs.Drawn.{Drawn, IsLeft};
ghost use Rattle.edits.specs.Recolour.{StandsRecoloured};
ghost use Rattle.edits.specs.EditOf.{EditOf, HasSmallAxis};
ghost use Rattle.edits.specs.declared.edit.Edit.{Edit as AnyEdit};
ghost use Rattle.edits.specs.declared.refusal.EditBad.{EditBad as AnyBad};

/// An edit of a pattern has at most one answer: a new pattern, or a broken rule.
pub fn answer_is_one()
    ensures { (old : ExactPattern) (edit : AnyEdit) → HasSmallAxis edit → (x y : Result ExactPattern AnyBad)
        → EditOf old edit x → EditOf old edit y → x ≡ y }
{}

/// A segment has at most two largest parts outside another that overlaps it: the part up to where
/// the other begins, and the part from where the other ends.
pub fn parts_are_two()
    ensures front { (t s : ExactSegment) → IsSegment t → IsSegment s → Overlap t s → Before t.p s.p
        → (let u : ExactSegment = record { p = t.p; q = s.p } in IsPart u t s) }
    ensures behind { (t s : ExactSegment) → IsSegment t → IsSegment s → Overlap t s → Before s.q t.q
        → (let u : ExactSegment = record { p = s.q; q = t.q } in IsPart u t s) }
    ensures only { (u t s : ExactSegment) → IsSegment t → IsSegment s → Overlap t s → IsPart u t s
        → (Before t.p s.p × SamePoint u.p t.p × SamePoint u.q s.p)
        ⊎ (Before s.q t.q × SamePoint u.p s.q × SamePoint u.q t.q) }
{}

/// A crease that is drawn over a pattern, a part that is erased and a part that is recoloured leave
/// a pattern, where at most 20,000 creases stand.
pub fn patterns_are_kept()
    ensures drawn { (old : ExactPattern) (d : ExactCrease) (after : List ExactCrease) → IsPattern old
        → IsKey old.sheet d.seg → Drawn old.creases d after → length after ≤ crease_limit
        → IsPattern (with_creases old after) }
    ensures erased { (old : ExactPattern) (s : ExactSegment) (after : List ExactCrease) → IsPattern old
        → IsKey old.sheet s → AreCreases (IsLeft old.creases s) after → length after ≤ crease_limit
        → IsPattern (with_creases old after) }
    ensures recoloured { (old : ExactPattern) (s : ExactSegment) (c : AnyColour) (after : List ExactCrease)
        → IsPattern old → IsKey old.sheet s → AreCreases (StandsRecoloured old.creases s c) after
        → length after ≤ crease_limit → IsPattern (with_creases old after) }
{}
