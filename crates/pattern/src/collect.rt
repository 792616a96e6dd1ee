//! A pattern of creases that are listed in any order.
ghost use Rattle.std.specs.Prelude.{IfOk, IfSome, IsNone};
ghost use Rattle.sheet.specs.Pattern.{ExactPattern};
ghost use Rattle.pattern.specs.Collecting.{HasJust};

use crate::step::put_all;
use crate::{Crease, CreaseMap, Pattern};
use ports::NoMemory;
use sheet::{CREASE_LIMIT, Sheet};
use std::alloc::Global;

impl Pattern {
    /// The pattern on a sheet with just these creases, which are listed in any order, or None exactly
    /// where there is none: a segment is not in the sheet, lies on a side of it, overlaps another or
    /// is listed twice, or there are more than `CREASE_LIMIT`. It takes the time of the creases.
    ///
    /// # Errors
    ///
    /// `NoMemory` where memory for the creases runs out.
    pub fn with_creases(
        alloc: Global,
        sheet: Sheet,
        creases: &[Crease],
    ) -> Result<Option<Pattern>, NoMemory>
        ensures some { IfOk result (λ found. IfSome found (HasJust sheet creases.now)) }
        ensures none { IfOk result
            (λ found. IsNone found → (pattern : ExactPattern) → ¬ HasJust sheet creases.now pattern) }
    {
        let _w = sheet.w();
        let mut map = CreaseMap::new(alloc);
        if !put_all(&mut map, &sheet, creases)? {
            return Ok(None);
        }
        if map.len() > CREASE_LIMIT {
            return Ok(None);
        }
        Ok(Some(Pattern {
            sheet,
            creases: map,
        }))
    }
}
