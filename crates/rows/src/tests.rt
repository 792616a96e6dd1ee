//! Rows of small projects, worked by hand.
use crate::{CreaseRow, ProjectRow, SheetRow, StepRow, project_of};
use pattern::pattern_bytes;
use projects::Project;
use std::alloc::Global;
use std::test::Fail;

const DIAGONAL: &str = "+ M 0,0 1,1\n";

const TURNED: &str = "- M 0,0 1,1\n+ V 0,0 1,1\n";

fn row(rev: u64, low: u64, mark: u64, high: u64) -> ProjectRow {
    ProjectRow {
        rev,
        low,
        mark,
        high,
    }
}

/// Rows of creases, each by the text of its segment and by its letter.
fn creases(alloc: Global, texts: &[(&str, &str)]) -> Result<Vec<CreaseRow>, Fail> {
    let mut rows = Vec::new(alloc);
    for (seg, colour) in texts.iter() {
        rows.push(CreaseRow {
            seg: String::from_str(alloc, seg)?,
            colour: String::from_str(alloc, colour)?,
        })?;
    }
    Ok(rows)
}

/// Rows of steps, each by its position and by the text of its delta.
fn steps(alloc: Global, texts: &[(u64, &str)]) -> Result<Vec<StepRow>, Fail> {
    let mut rows = Vec::new(alloc);
    for (pos, body) in texts.iter() {
        rows.push(StepRow {
            pos: *pos,
            body: String::from_str(alloc, body)?,
        })?;
    }
    Ok(rows)
}

/// The project of these rows.
fn project(
    alloc: Global,
    row: ProjectRow,
    sheet: Option<SheetRow>,
    lines: &[(&str, &str)],
    texts: &[(u64, &str)],
) -> Result<Option<Project>, Fail> {
    let creases = creases(alloc, lines)?;
    let steps = steps(alloc, texts)?;
    Ok(project_of(alloc, &row, sheet, creases.as_slice(), steps.as_slice())?)
}

/// Whether the rows with a diagonal and these numbers and steps stand for a project.
fn stands(alloc: Global, row: ProjectRow, texts: &[(u64, &str)]) -> Result<bool, Fail> {
    Ok(project(alloc, row, None, &[("0,0 1,1", "M")], texts)?.is_some())
}

#[test]
fn rows_of_a_drawn_crease_are_a_project(rt: HostRuntime) -> Result<(), Fail> {
    let alloc = rt.alloc();
    let drawn = project(
        alloc,
        row(1, 0, 1, 1),
        Some(SheetRow { w: 2, h: 1 }),
        &[("0,0 1,1", "M")],
        &[(1, DIAGONAL)],
    )?;
    let Some(drawn) = drawn else {
        return Err(Fail::from("drawn"));
    };
    assert!(rt; drawn.rev() == 1 && drawn.history().can_undo() && !drawn.history().can_redo());
    let text = pattern_bytes(alloc, drawn.pattern())?;
    assert!(rt; text.as_slice() == b"q2 2 2 1\nM 0,0 1,1\n".as_slice());
    Ok(())
}

#[test]
fn rows_of_an_undone_crease_are_a_project(rt: HostRuntime) -> Result<(), Fail> {
    let alloc = rt.alloc();
    let undone = project(alloc, row(2, 0, 0, 1), None, &[], &[(1, DIAGONAL)])?;
    let Some(undone) = undone else {
        return Err(Fail::from("undone"));
    };
    assert!(rt; undone.rev() == 2 && !undone.history().can_undo() && undone.history().can_redo());
    assert!(rt; pattern_bytes(alloc, undone.pattern())?.as_slice() == b"q2 1\n".as_slice());
    Ok(())
}

#[test]
fn numbers_of_a_row_are_in_order(rt: HostRuntime) -> Result<(), Fail> {
    let both = [(1, DIAGONAL), (2, TURNED)];
    for (row, is_one) in [
        (row(3, 0, 1, 2), true),
        (row(1_000_000_000_000, 0, 1, 2), true),
        // The last rev, the steps that were taken, the rev and the positions are passed.
        (row(1_000_000_000_001, 0, 1, 2), false),
        (row(3, 0, 2, 2), false),
        (row(3, 0, 3, 2), false),
        (row(1, 0, 1, 2), false),
        (row(3, 1, 2, 3), false),
        (row(3, 0, 1, 3), false),
    ] {
        assert!(rt; stands(rt.alloc(), row, &both)? == is_one);
    }
    Ok(())
}

#[test]
fn positions_of_steps_are_in_order(rt: HostRuntime) -> Result<(), Fail> {
    for steps in [
        [(1, DIAGONAL), (3, TURNED)],
        [(2, TURNED), (1, DIAGONAL)],
        [(1, DIAGONAL), (1, TURNED)],
    ] {
        assert!(rt; !stands(rt.alloc(), row(3, 0, 1, 2), &steps)?);
    }
    Ok(())
}

/// Whether the rows of these creases alone stand for a project.
fn are_creases(alloc: Global, lines: &[(&str, &str)]) -> Result<bool, Fail> {
    Ok(project(alloc, row(0, 0, 0, 0), None, lines, &[])?.is_some())
}

#[test]
fn cells_of_creases_are_tested(rt: HostRuntime) -> Result<(), Fail> {
    let alloc = rt.alloc();
    assert!(rt; are_creases(alloc, &[("0,1 1,0", "V"), ("0,0 1,1", "A")])?);
    for (seg, colour) in [
        ("0,0 1,1", "B"),
        ("0,0 1,1", ""),
        ("0,0 1,1", "MV"),
        ("1,1 0,0", "M"),
        ("0,0 1,1/2", "M"),
        ("0,0 2,2", "M"),
        ("0,0 0,1", "M"),
        ("0,0", "M"),
    ] {
        assert!(rt; !are_creases(alloc, &[(seg, colour)])?, "{seg} {colour}");
    }
    assert!(rt; !are_creases(alloc, &[("0,0 1,1", "M"), ("0,0 1,1", "M")])?);
    Ok(())
}

#[test]
fn sides_of_a_sheet_are_tested(rt: HostRuntime) -> Result<(), Fail> {
    let alloc = rt.alloc();
    for (w, h) in [(0, 1), (9, 1), (1, 257)] {
        let sheet = Some(SheetRow { w, h });
        assert!(rt; project(alloc, row(0, 0, 0, 0), sheet, &[], &[])?.is_none());
    }
    Ok(())
}
