//! A project of its rows.
ghost use Rattle.std.specs.Prelude.{◌↔◌, IfOk, IfSome, IsNone, IsTrue};
ghost use Rattle.sheet.specs.Sheet.{ExactSheet, IsSheet};
ghost use Rattle.projects.specs.Projects.{ExactProject};
ghost use Rattle.rows.specs.Marks.{AreMarks};
ghost use Rattle.rows.specs.Rows.{IsSheetOf, RowsStandFor};

use crate::crease_rows::{CreaseRow, pattern_of};
use crate::step_rows::{StepRow, history_of};
use ports::NoMemory;
use projects::Project;
use sheet::Sheet;
use std::alloc::Global;
use vocabulary::LAST_REV;

/// How many steps are kept.
pub const STEP_LIMIT: u64 = 1000;

/// The row of a project: its rev, and the positions of its steps. Those of the past are from
/// `low + 1` to `mark`, and those of the future from `mark + 1` to `high`.
#[derive(Clone, Copy, Debug, PartialEq, Eq)]
pub struct ProjectRow {
    /// How often the project was changed, at most 10^12.
    pub rev: u64,
    /// The position before the first step that is kept.
    pub low: u64,
    /// The position of the last step that was taken.
    pub mark: u64,
    /// The position of the last step that is kept, at most `low + 1000` and at most the rev.
    pub high: u64,
}

/// The row of a sheet: its width and its height.
#[derive(Clone, Copy, Debug, PartialEq, Eq)]
pub struct SheetRow {
    /// From 1 to 8.
    pub w: u64,
    /// From 1 to 8.
    pub h: u64,
}

/// The project for which the rows stand, or None exactly where they stand for none. The steps are
/// listed by their positions, and the creases in any order. It takes time in proportion to the rows
/// and to the deltas.
///
/// # Errors
///
/// `NoMemory` where memory for the project runs out.
pub fn project_of(
    alloc: Global,
    row: &ProjectRow,
    sheet: Option<SheetRow>,
    creases: &[CreaseRow],
    steps: &[StepRow],
) -> Result<Option<Project>, NoMemory>
    ensures some { IfOk result (λ found. IfSome found (RowsStandFor row.now sheet creases.now steps.now)) }
    ensures none { IfOk result (λ found. IsNone found
        → (project : ExactProject) → ¬ RowsStandFor row.now sheet creases.now steps.now project) }
{
    if !are_marks(row) {
        return Ok(None);
    }
    let Some(sheet) = sheet_of(sheet) else {
        return Ok(None);
    };
    let Some(pattern) = pattern_of(alloc, sheet, creases)? else {
        return Ok(None);
    };
    let Some(history) = history_of(alloc, row, steps)? else {
        return Ok(None);
    };
    Project::new(alloc, row.rev, pattern, history)
}

/// Whether the numbers of a row are in order, with at most 1,000 steps and no more than the rev.
pub fn are_marks(row: &ProjectRow) -> bool
    ensures { IsTrue result ↔ AreMarks row.now }
{
    row.rev <= LAST_REV
        && row.low <= row.mark
        && row.mark <= row.high
        && row.high - row.low <= STEP_LIMIT
        && row.high <= row.rev
}

/// The sheet of a row, or the one of width 1 and height 1 where there is no row.
fn sheet_of(row: Option<SheetRow>) -> Option<Sheet>
    ensures some { IfSome result (IsSheetOf row) }
    ensures none { IsNone result → (sheet : ExactSheet) → IsSheet sheet → ¬ IsSheetOf row sheet }
{
    match row {
        None => Some(Sheet::square()),
        Some(row) => Sheet::new(u8::try_from(row.w).ok()?, u8::try_from(row.h).ok()?),
    }
}
