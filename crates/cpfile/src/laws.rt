//! Laws of CP text. Each is a theorem: a function that does nothing, whose clause says what holds.
ghost use Rattle.std.specs.Prelude.{◌≡◌, ℕ, List, Result};
ghost use Rattle.sheet.specs.Sheet.{ExactSheet};
ghost use Rattle.lattice.specs.Lattice.{Measures};
ghost use Rattle.subdivide.specs.Subdivision.{ExactSubdivision};
ghost use Rattle.cpfile.specs.CpReading.{ReadsCp};
ghost use Rattle.cpfile.specs.CpText.{IsCpText};
ghost use Rattle.cpfile.specs.declared.bad.CpBad.{CpBad};
ghost use Rattle.cpfile.specs.declared.drawn.CpLines.{CpLines};

/// Of one text, one lattice and one sheet there is one answer at most.
pub fn cp_reading_is_one()
    ensures { (l : Measures) → (sheet : ExactSheet) → (bytes : List ℕ) → (read other : Result CpLines CpBad)
        → ReadsCp l sheet bytes read → ReadsCp l sheet bytes other → read ≡ other }
{}

/// A subdivision has one CP text.
pub fn cp_text_is_one()
    ensures { (s : ExactSubdivision) → (text other : List ℕ) → IsCpText s text → IsCpText s other
        → text ≡ other }
{}
