//! The laws of words and lines: theorems, which are functions whose clauses say what holds.
ghost use Rattle.std.specs.Prelude.{◌≡◌, ℕ, List};
ghost use Rattle.lines.specs.Lines.{AreLines, IsBare, IsFirstLine};
ghost use Rattle.lines.specs.Words.{AreWords, Word as AnyWord};

/// A line has one list of words.
pub fn words_are_one()
    ensures { (line : List ℕ) (words others : List AnyWord)
        → AreWords line words → AreWords line others → words ≡ others }
{}

/// A text has one list of lines, and one rest.
pub fn lines_are_one()
    ensures lines { (text rest other : List ℕ) (lines others : List (List ℕ))
        → AreLines text lines rest → AreLines text others other → lines ≡ others }
    ensures rest { (text rest other : List ℕ) (lines others : List (List ℕ))
        → AreLines text lines rest → AreLines text others other → rest ≡ other }
{}

/// A text has one first line, and the bytes behind it are one.
pub fn first_line_is_one()
    ensures line { (text line other after rest : List ℕ)
        → IsFirstLine text line after → IsFirstLine text other rest → line ≡ other }
    ensures after { (text line other after rest : List ℕ)
        → IsFirstLine text line after → IsFirstLine text other rest → after ≡ rest }
{}

/// Bytes without a CR at their end are one.
pub fn bare_is_one()
    ensures { (bytes line other : List ℕ)
        → IsBare bytes line → IsBare bytes other → line ≡ other }
{}
