//! The rows of the creases of a project.
ghost use Rattle.std.specs.Prelude.{◌≡◌, ◌≢◌, ◌∷◌, [], All, IfOk, IfSome, IsNone};
ghost use Rattle.sheet.specs.Pattern.{ExactCrease, ExactPattern};
ghost use Rattle.rows.specs.Reading.{IsHeldRowOf, AreRowsOf, IsPatternOf};
ghost use Rattle.sheet.specs.declared.colour.Colour.{Colour as AnyColour};
ghost use Rattle.pattern.specs.NativeText.{letter};

use pattern::{Colour, Crease, Pattern, read_seg};
use ports::{Listed, NoMemory};
use sheet::Sheet;
use std::alloc::Global;
use std::marker::Model;

/// The row of a crease: the text of its segment, and the letter of its colour.
#[derive(Drop)]
pub struct CreaseRow {
    /// The lesser end, a space and the greater end.
    pub seg: String,
    /// `M`, `V` or `A`.
    pub colour: String,
}

impl Model for CreaseRow {
    ghost use Rattle.std.specs.Prelude.{string_bytes};
    ghost use Rattle.rows.specs.Rows.{ExactCreaseRow};

    ghost Value = { ExactCreaseRow };

    ghost view = { λ s. record { seg = string_bytes s.seg; colour = string_bytes s.colour } };
}

/// The pattern on a sheet of which the creases are those of the rows, or None exactly where there is
/// none.
pub(crate) fn pattern_of(
    alloc: Global,
    sheet: Sheet,
    rows: &[CreaseRow],
) -> Result<Option<Pattern>, NoMemory>
    ensures some { IfOk result (λ found. IfSome found (IsPatternOf sheet rows.now)) }
    ensures none { IfOk result (λ found. IsNone found
        → (pattern : ExactPattern) → ¬ IsPatternOf sheet rows.now pattern) }
{
    let Some(creases) = creases_of(alloc, rows)? else {
        return Ok(None);
    };
    Pattern::with_creases(alloc, sheet, creases.as_slice())
}

/// The creases of the rows, in their order, or None exactly where a row is that of no crease.
fn creases_of(alloc: Global, rows: &[CreaseRow]) -> Result<Option<Listed<Crease>>, NoMemory>
    ensures some { IfOk result (λ found. IfSome found (AreRowsOf rows.now)) }
    ensures none { IfOk result (λ found. IsNone found
        → ¬ All (λ r. (f : ExactCrease) × IsHeldRowOf r f) rows.now) }
{
    let mut creases = Vec::new(alloc);
    for row in rows {
        let Some(crease) = crease_of(row) else {
            return Ok(None);
        };
        creases.push(crease)?;
    }
    Ok(Some(Listed::new(creases)))
}

/// The crease of a row.
fn crease_of(row: &CreaseRow) -> Option<Crease>
    ensures some { IfSome result (IsHeldRowOf row.now) }
    ensures none { IsNone result → (f : ExactCrease) → ¬ IsHeldRowOf row.now f }
{
    let colour = colour_of(row.colour.as_bytes())?;
    let seg = read_seg(row.seg.as_bytes())?;
    Some(Crease { seg, colour })
}

/// The colour of which this is the letter.
fn colour_of(text: &[u8]) -> Option<Colour>
    ensures some { IfSome result (λ c. text.now ≡ letter c ∷ []) }
    ensures none { IsNone result → (c : AnyColour) → text.now ≢ letter c ∷ [] }
{
    match text {
        b"M" => Some(Colour::M),
        b"V" => Some(Colour::V),
        b"A" => Some(Colour::A),
        _ => None,
    }
}
