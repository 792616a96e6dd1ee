//! Laws of rows: they stand for one project, and after a step just the rows that it changes are
//! others. Each is a theorem: a function that does nothing, whose clause says what holds.
ghost use Rattle.std.specs.Prelude.{◌≡◌, List, Option};
ghost use Rattle.pattern.specs.declared.delta.Delta.{Delta as AnyDelta};
ghost use Rattle.projects.specs.Projects.{ExactProject, IsProject};
ghost use Rattle.projects.specs.Steps.{StepFits, Stepped};
ghost use Rattle.projects.specs.declared.step.Step.TheVariants as step;
ghost use Rattle.rows.specs.Rows.{ExactCreaseRow, ExactStepRow, RowsStandFor};
ghost use Rattle.rows.specs.Changes.{RowsDone, RowsUndone, RowsRedone};
ghost use Rattle.rows.specs.declared.project.ProjectRow.{ProjectRow as AnyRow};
ghost use Rattle.rows.specs.declared.project.SheetRow.{SheetRow as AnySheet};

/// Rows stand for one project.
pub fn rows_stand_for_one()
    ensures { (row : AnyRow) (sheet : Option AnySheet) (creases : List ExactCreaseRow)
        (steps : List ExactStepRow)
        (project other : ExactProject)
        → RowsStandFor row sheet creases steps project → RowsStandFor row sheet creases steps other
        → project ≡ other }
{}

/// After a delta that fits, the rows stand for the project to which it leads.
pub fn rows_after_a_delta()
    ensures { (delta : AnyDelta) (row next : AnyRow) (sheet : Option AnySheet)
        (creases now : List ExactCreaseRow)
        (steps new : List ExactStepRow) (project later : ExactProject)
        → RowsStandFor row sheet creases steps project → StepFits project (step.Do delta)
        → Stepped project (step.Do delta) later → IsProject later
        → RowsDone delta row next creases now steps new → RowsStandFor next sheet now new later }
{}

/// After an undo, the rows stand for the project to which it leads.
pub fn rows_after_an_undo()
    ensures { (row next : AnyRow) (sheet : Option AnySheet) (creases now : List ExactCreaseRow)
        (steps : List ExactStepRow) (project later : ExactProject)
        → RowsStandFor row sheet creases steps project → Stepped project step.Undo later → IsProject later
        → RowsUndone project row next creases now → RowsStandFor next sheet now steps later }
{}

/// After a redo, the rows stand for the project to which it leads.
pub fn rows_after_a_redo()
    ensures { (row next : AnyRow) (sheet : Option AnySheet) (creases now : List ExactCreaseRow)
        (steps : List ExactStepRow) (project later : ExactProject)
        → RowsStandFor row sheet creases steps project → Stepped project step.Redo later → IsProject later
        → RowsRedone project row next creases now → RowsStandFor next sheet now steps later }
{}
