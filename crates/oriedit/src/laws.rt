//! Laws of what the program owes for its input. Each is a theorem: a function that does
//! nothing, whose clause says what holds.
ghost use Rattle.std.specs.Prelude.{◌≡◌, ℕ, List};
ghost use Rattle.sheet.specs.Sheet.{ExactSheet};
ghost use Rattle.lattice.specs.Lattice.{Measures};
ghost use Rattle.oriedit.specs.CutText.{CutText};
ghost use Rattle.oriedit.specs.CheckText.{CheckText};
ghost use Rattle.oriedit.specs.Units.{AreUnits};
ghost use Rattle.oriedit.specs.declared.status.Status.{Status as AnyStatus};

use commands::wanted_is_one;
use cpfile::cp_reading_is_one;
use edits::answer_is_one;

/// For each input `cut` owes one text, with one status. So an input is cut or refused, and never
/// either of both.
pub fn cut_text_is_one()
    ensures { (bytes : List ℕ) (s r : AnyStatus) (text other : List ℕ) → CutText bytes s text
        → CutText bytes r other → (s ≡ r) × (text ≡ other) }
{}

/// For each input `check` owes one text, with one status, by a lattice and on a sheet. So an input is
/// refused or its faults are listed, and never either of both.
pub fn check_text_is_one()
    ensures { (lattice : Measures) (sheet : ExactSheet) (bytes : List ℕ) (s r : AnyStatus)
        (text other : List ℕ) → CheckText lattice sheet bytes s text → CheckText lattice sheet bytes r other
        → (s ≡ r) × (text ≡ other) }
{
    cp_reading_is_one();
    answer_is_one();
}

/// The bytes of a script have one list of whole units, and one rest.
pub fn units_are_one()
    ensures { (bytes rest other : List ℕ) (units others : List (List ℕ)) → AreUnits bytes units rest
        → AreUnits bytes others other → (units ≡ others) × (rest ≡ other) }
{
    wanted_is_one();
}
