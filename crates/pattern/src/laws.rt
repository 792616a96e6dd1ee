//! Laws of deltas and of texts: a delta leads to one pattern, its inverse leads back, a text is of
//! one pattern, segment, crease or delta, and what reading answers is settled by the bytes. Each is
//! a theorem: a function that does nothing, whose clause says what holds.
ghost use Rattle.std.specs.Prelude.{◌≡◌, ◌++◌, ◌∷◌, [], List, ℕ};
ghost use Rattle.exact.specs.Plane.{ExactSegment};
ghost use Rattle.sheet.specs.Pattern.{ExactCrease, ExactPattern, IsPattern};
ghost use Rattle.pattern.specs.Deltas.{Fits, Leads, inverse_of};
ghost use Rattle.pattern.specs.declared.delta.Delta.{Delta as AnyDelta};
ghost use Rattle.pattern.specs.NativeText.{pattern_text, line_text, crease_text};
ghost use Rattle.pattern.specs.SingleText.{IsSegText, IsCreaseText};
ghost use Rattle.pattern.specs.DeltaText.{IsDeltaText};
ghost use Rattle.pattern.specs.NativeReading.{IsRead, IsRefused};
ghost use Rattle.pattern.specs.declared.native.PatternBad.{PatternBad as AnyBad};

/// A native text is that of one pattern.
pub fn text_is_of_one_pattern()
    ensures { (pattern other : ExactPattern) → IsPattern pattern → IsPattern other
        → pattern_text pattern ≡ pattern_text other → pattern ≡ other }
{}

/// What is the text of a pattern is not refused, on any line or for any reason.
pub fn reading_is_one()
    ensures { (bytes : List ℕ) (pattern : ExactPattern) (bad : AnyBad) → IsRead bytes pattern
        → ¬ IsRefused bytes bad }
{}

/// Bytes are refused at one line, for one reason.
pub fn refusal_is_one()
    ensures { (bytes : List ℕ) (bad other : AnyBad) → IsRefused bytes bad → IsRefused bytes other
        → bad ≡ other }
{}

/// A text is that of one segment.
pub fn text_is_of_one_seg()
    ensures { (bytes : List ℕ) (s t : ExactSegment) → IsSegText bytes s → IsSegText bytes t → s ≡ t }
{}

/// A text is that of one crease.
pub fn text_is_of_one_crease()
    ensures { (bytes : List ℕ) (f g : ExactCrease) → IsCreaseText bytes f → IsCreaseText bytes g → f ≡ g }
{}

/// A text is that of one delta.
pub fn text_is_of_one_delta()
    ensures { (bytes : List ℕ) (delta other : AnyDelta) → IsDeltaText bytes delta → IsDeltaText bytes other
        → delta ≡ other }
{}

/// A line of native text is the text of its crease and a line feed.
pub fn line_is_crease_text()
    ensures { (f : ExactCrease) → line_text f.colour f.seg.p f.seg.q ≡ crease_text f ++ 10 ∷ [] }
{}

/// A delta leads from a pattern to one pattern.
pub fn delta_leads_to_one()
    ensures { (old new other : ExactPattern) (delta : AnyDelta) → Leads old delta new
        → Leads old delta other → new ≡ other }
{}

/// The inverse of a delta that fits a pattern fits the one that it leads to, and leads back.
pub fn inverse_leads_back()
    ensures fits { (old new : ExactPattern) (delta : AnyDelta) → IsPattern old → Fits old delta
        → Leads old delta new → Fits new (inverse_of delta) }
    ensures leads { (old new : ExactPattern) (delta : AnyDelta) → IsPattern old → Fits old delta
        → Leads old delta new → Leads new (inverse_of delta) old }
{}
