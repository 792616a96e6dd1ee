//! Creases that are given to be drawn, tested before one of them is.
ghost use Rattle.std.specs.Prelude.{IfOk, IfErr, All, Ok, Err};
ghost use Rattle.sheet.specs.Pattern.{IsKey};
ghost use Rattle.edits.specs.Lines.{LineOf, LinesOf};

use crate::EditBad;
use pattern::Crease;
use plane::{are_in_sheet, seg_on_border};
use sheet::Sheet;

/// Tests whether each of these creases can stand in a pattern. The first that cannot gives the refusal.
///
/// # Errors
///
/// `Outside` where an end of the crease is not in the sheet; else `OnBorder` where it lies on a side
/// of the sheet.
pub(crate) fn test_lines(sheet: &Sheet, creases: &[Crease]) -> Result<(), EditBad>
    ensures ok { IfOk result (λ _. LinesOf sheet.now creases.now (Ok creases.now)) }
    ensures keys { IfOk result (λ _. All (λ f. IsKey sheet.now f.seg) creases.now) }
    ensures err { IfErr result (λ e. LinesOf sheet.now creases.now (Err e)) }
{
    for crease in creases {
        test_line(sheet, crease)?;
    }
    Ok(())
}

/// Tests whether a crease can stand in a pattern.
fn test_line(sheet: &Sheet, crease: &Crease) -> Result<(), EditBad>
    ensures ok { IfOk result (λ _. LineOf sheet.now crease.now (Ok crease.now)) }
    ensures key { IfOk result (λ _. IsKey sheet.now crease.now.seg) }
    ensures err { IfErr result (λ e. LineOf sheet.now crease.now (Err e)) }
{
    if !are_in_sheet(sheet, &crease.seg.p(), &crease.seg.q()) {
        return Err(EditBad::Outside);
    }
    if seg_on_border(sheet, &crease.seg) {
        return Err(EditBad::OnBorder);
    }
    Ok(())
}
