//! The rows of the steps of a project.
ghost use Rattle.std.specs.Prelude.{◌≡◌, ◌≤◌, ◌+◌, ◌++◌, [], List, length, IfOk, IfSome, IsNone, OnOk};
ghost use Rattle.history.specs.Histories.{ExactHistory};
ghost use Rattle.projects.specs.Projects.{last_rev};
ghost use Rattle.pattern.specs.declared.delta.Delta.{Delta as AnyDelta};
ghost use Rattle.rows.specs.Marks.{AreMarks};
ghost use Rattle.rows.specs.Rows.{AreStepsFrom};
ghost use Rattle.rows.specs.Reading.{IsHistoryOf};

use crate::ProjectRow;
use history::History;
use pattern::read_delta;
use ports::NoMemory;
use std::alloc::Global;
use std::marker::Model;

/// The row of a step: its position, and the text of its delta.
#[derive(Drop)]
pub struct StepRow {
    /// The positions of a project's steps follow one another.
    pub pos: u64,
    /// A line for each crease that leaves, and then one for each that comes.
    pub body: String,
}

impl Model for StepRow {
    ghost use Rattle.std.specs.Prelude.{string_bytes};
    ghost use Rattle.rows.specs.Rows.{ExactStepRow};

    ghost Value = { ExactStepRow };

    ghost view = { λ s. record { pos = s.pos; body = string_bytes s.body } };
}

/// The history of which the steps are these, by their positions, or None exactly where there is none.
pub(crate) fn history_of(
    alloc: Global,
    row: &ProjectRow,
    steps: &[StepRow],
) -> Result<Option<History>, NoMemory>
    requires { AreMarks row.now }
    ensures some { IfOk result (λ found. IfSome found (IsHistoryOf row.now steps.now)) }
    ensures none { IfOk result (λ found. IsNone found
        → (history : ExactHistory) → ¬ IsHistoryOf row.now steps.now history) }
{
    if steps.len() as u64 != row.high - row.low {
        return Ok(None);
    }
    let Some(mut history) = taken(alloc, row.low, steps)? else {
        return Ok(None);
    };
    take_back(&mut history, (row.high - row.mark) as usize)?;
    Ok(Some(history))
}

/// The history with the deltas of these steps as its past, or None exactly where they do not follow
/// this position or a body is the text of no delta.
fn taken(alloc: Global, low: u64, steps: &[StepRow]) -> Result<Option<History>, NoMemory>
    requires low { low ≤ last_rev }
    requires kept { length steps.now ≤ 1000 }
    ensures some { IfOk result (λ found. IfSome found (λ history.
        (history.future ≡ []) × AreStepsFrom low steps.now history.past)) }
    ensures none { IfOk result (λ found. IsNone found
        → (deltas : List AnyDelta) → ¬ AreStepsFrom low steps.now deltas) }
{
    let mut history = History::new(alloc);
    let mut pos = low;
    for step in steps {
        pos += 1;
        if step.pos != pos {
            return Ok(None);
        }
        let Some(delta) = read_delta(alloc, step.body.as_bytes())? else {
            return Ok(None);
        };
        history.push(delta)?;
    }
    Ok(Some(history))
}

/// Takes so many deltas of the past back.
fn take_back(history: &mut History, count: usize) -> Result<(), NoMemory>
    requires { count ≤ length history.old.past }
    ensures all { OnOk result
        (history.new.past ++ history.new.future ≡ history.old.past ++ history.old.future) }
    ensures count { OnOk result (length history.new.future ≡ length history.old.future + count) }
{
    for _ in 0..count {
        history.back()?;
    }
    Ok(())
}
