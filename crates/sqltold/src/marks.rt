//! What a step makes of the row of its project.
ghost use Rattle.std.specs.Prelude.{◌≡◌, ◌+◌, ◌<◌, ◌↔◌, IfSome, IsSome};
ghost use Rattle.projects.specs.Projects.{last_rev};
ghost use Rattle.rows.specs.Marks.{AreMarks, IsDone, IsUndone, IsRedone};

use rows::{ProjectRow, STEP_LIMIT, are_marks};
use vocabulary::LAST_REV;

/// The rev after a step, or None exactly where the numbers are not in order or the rev is the last.
fn next_rev(row: &ProjectRow) -> Option<u64>
    ensures some { IfSome result (λ rev. rev ≡ row.now.rev + 1) }
    ensures exactly { IsSome result ↔ (AreMarks row.now × (row.now.rev < last_rev)) }
{
    if are_marks(row) && row.rev < LAST_REV {
        Some(row.rev + 1)
    } else {
        None
    }
}

/// The row after a delta was taken, or None exactly where the numbers are not in order or the rev
/// is the last.
pub(crate) fn done(row: &ProjectRow) -> Option<ProjectRow>
    ensures some { IfSome result (IsDone row.now) }
    ensures exactly { IsSome result ↔ (AreMarks row.now × (row.now.rev < last_rev)) }
{
    let rev = next_rev(row)?;
    let mark = row.mark + 1;
    let low = if mark - row.low > STEP_LIMIT {
        row.low + 1
    } else {
        row.low
    };
    let high = mark;
    Some(ProjectRow {
        rev,
        low,
        mark,
        high,
    })
}

/// The row after the last delta of the past was taken back, or None exactly where the numbers are
/// not in order, the rev is the last or there is no past.
pub(crate) fn undone(row: &ProjectRow) -> Option<ProjectRow>
    ensures some { IfSome result (IsUndone row.now) }
    ensures exactly { IsSome result
        ↔ (AreMarks row.now × (row.now.rev < last_rev) × (row.now.low < row.now.mark)) }
{
    let rev = next_rev(row)?;
    if row.mark <= row.low {
        return None;
    }
    let mark = row.mark - 1;
    Some(ProjectRow { rev, mark, ..*row })
}

/// The row after the next delta of the future was taken again, or None exactly where the numbers
/// are not in order, the rev is the last or there is no future.
pub(crate) fn redone(row: &ProjectRow) -> Option<ProjectRow>
    ensures some { IfSome result (IsRedone row.now) }
    ensures exactly { IsSome result
        ↔ (AreMarks row.now × (row.now.rev < last_rev) × (row.now.mark < row.now.high)) }
{
    let rev = next_rev(row)?;
    if row.mark >= row.high {
        return None;
    }
    let mark = row.mark + 1;
    Some(ProjectRow { rev, mark, ..*row })
}
