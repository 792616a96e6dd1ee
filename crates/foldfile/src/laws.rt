//! Laws of FOLD text. Each is a theorem: a function that does nothing, whose clause says what holds.
ghost use Rattle.std.specs.Prelude.{◌≡◌, ℕ, List};
ghost use Rattle.subdivide.specs.Subdivision.{ExactSubdivision};
ghost use Rattle.foldfile.specs.FoldText.{IsFoldText};

/// A subdivision has one FOLD text.
pub fn fold_text_is_one()
    ensures { (s : ExactSubdivision) → (text other : List ℕ) → IsFoldText s text → IsFoldText s other
        → text ≡ other }
{}
