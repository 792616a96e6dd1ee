//! Mountains and valleys exchanged.
ghost use Rattle.std.specs.Prelude.{◌≡◌, IfOk};
ghost use Rattle.sheet.specs.Pattern.{IsPattern};
ghost use Rattle.edits.specs.Drafts.{pattern_of};
ghost use Rattle.edits.specs.Flip.{exchanged, exchanged_crease, flipped};

use crate::draft::Draft;
use pattern::{Crease, Pattern};
use ports::NoMemory;
use sheet::Colour;
use std::alloc::Global;

/// The creases of a pattern, each mountain as a valley and each valley as a mountain.
///
/// # Errors
///
/// `NoMemory` where memory for the creases runs out.
pub(crate) fn flipped_draft<'a>(alloc: Global, pattern: &'a Pattern) -> Result<Draft<'a>, NoMemory>
    ensures flipped { IfOk result (λ draft. draft.creases ≡ flipped pattern.now.creases) }
    ensures pattern { IfOk result (λ draft. IsPattern (pattern_of draft)) }
    ensures same { IfOk result (λ draft. draft.pattern ≡ pattern.now) }
{
    let mut draft = Draft::of(alloc, pattern);
    for crease in pattern.creases() {
        draft.take_out(&crease)?;
        draft.put_in(exchanged(crease))?;
    }
    Ok(draft)
}

/// A crease with a valley for a mountain, and a mountain for a valley.
fn exchanged(crease: Crease) -> Crease
    ensures { result ≡ exchanged_crease crease }
{
    Crease {
        seg: crease.seg,
        colour: exchanged_colour(crease.colour),
    }
}

/// A valley for a mountain, and a mountain for a valley.
fn exchanged_colour(colour: Colour) -> Colour
    ensures { result ≡ exchanged colour }
{
    match colour {
        Colour::M => Colour::V,
        Colour::V => Colour::M,
        Colour::A => Colour::A,
    }
}
