//! What is read of the tables: each query names its columns, and gives its rows at once.
use crate::halt::Halt;
use projects::{Name, Project};
use rows::{CreaseRow, ProjectRow, SheetRow, StepRow, project_of};
use sqlite::{Alter, Connection, Error, Row, params};
use std::alloc::Global;

/// The rows of a project: one, or none.
pub(crate) fn select_project<S: Alter>(
    connection: &mut Connection<S>,
    name: &str,
) -> Result<Vec<Row>, Error> {
    connection.query_all(
        "SELECT rev, low, mark, high FROM project WHERE name = ?1",
        params![name],
    )
}

/// The rows of the sheet of a project: one, or none where it is the 1 by 1 sheet.
fn select_sheet<S: Alter>(connection: &mut Connection<S>, name: &str) -> Result<Vec<Row>, Error> {
    connection.query_all("SELECT w, h FROM sheet WHERE name = ?1", params![name])
}

/// The rows of the creases of a project.
pub(crate) fn select_creases<S: Alter>(
    connection: &mut Connection<S>,
    name: &str,
) -> Result<Vec<Row>, Error> {
    connection.query_all(
        "SELECT seg, colour FROM crease WHERE name = ?1",
        params![name],
    )
}

/// The rows of the steps of a project, by their positions.
pub(crate) fn select_steps<S: Alter>(
    connection: &mut Connection<S>,
    name: &str,
) -> Result<Vec<Row>, Error> {
    connection.query_all(
        "SELECT pos, body FROM step WHERE name = ?1 ORDER BY pos",
        params![name],
    )
}

/// The rows of all names, ascending.
fn select_names<S: Alter>(connection: &mut Connection<S>) -> Result<Vec<Row>, Error> {
    connection.query_all("SELECT name FROM project ORDER BY name", &[])
}

/// The numbers of the first of these rows, if there is one.
pub(crate) fn project_row(rows: &[Row]) -> Result<Option<ProjectRow>, Error> {
    let Some(row) = rows.first() else {
        return Ok(None);
    };
    Ok(Some(ProjectRow {
        rev: row.get(0)?,
        low: row.get(1)?,
        mark: row.get(2)?,
        high: row.get(3)?,
    }))
}

/// The width and the height in the first of these rows, if there is one.
fn sheet_row(rows: &[Row]) -> Result<Option<SheetRow>, Error> {
    let Some(row) = rows.first() else {
        return Ok(None);
    };
    Ok(Some(SheetRow {
        w: row.get(0)?,
        h: row.get(1)?,
    }))
}

/// The texts and letters of all these rows.
fn crease_rows(alloc: Global, rows: &[Row]) -> Result<Vec<CreaseRow>, Halt> {
    let mut creases = Vec::new(alloc);
    for row in rows {
        creases.push(CreaseRow {
            seg: row.get(0)?,
            colour: row.get(1)?,
        })?;
    }
    Ok(creases)
}

/// The positions and bodies of all these rows.
fn step_rows(alloc: Global, rows: &[Row]) -> Result<Vec<StepRow>, Halt> {
    let mut steps = Vec::new(alloc);
    for row in rows {
        steps.push(StepRow {
            pos: row.get(0)?,
            body: row.get(1)?,
        })?;
    }
    Ok(steps)
}

/// The names of all these rows.
fn name_rows(alloc: Global, rows: &[Row]) -> Result<Vec<Name>, Halt> {
    let mut names = Vec::new(alloc);
    for row in rows {
        let text: String = row.get(0)?;
        match Name::new(text.as_bytes()) {
            Ok(name) => names.push(name)?,
            Err(_) => return Err(Halt::Fault),
        }
    }
    Ok(names)
}

/// Whether there is a project under a name.
pub(crate) fn is_there<S: Alter>(connection: &mut Connection<S>, name: &str) -> Result<bool, Halt> {
    let rows = select_project(connection, name)?;
    Ok(!rows.is_empty())
}

/// The project under a name, if there is one.
pub(crate) fn fetch<S: Alter>(
    connection: &mut Connection<S>,
    alloc: Global,
    name: &str,
) -> Result<Option<Project>, Halt> {
    let rows = select_project(connection, name)?;
    match project_row(rows.as_slice())? {
        None => Ok(None),
        Some(row) => Ok(Some(assemble(connection, alloc, name, &row)?)),
    }
}

/// The project of a row and of all other rows under its name.
fn assemble<S: Alter>(
    connection: &mut Connection<S>,
    alloc: Global,
    name: &str,
    row: &ProjectRow,
) -> Result<Project, Halt> {
    let sheet = sheet_row(select_sheet(connection, name)?.as_slice())?;
    let creases = crease_rows(alloc, select_creases(connection, name)?.as_slice())?;
    let steps = step_rows(alloc, select_steps(connection, name)?.as_slice())?;
    match project_of(alloc, row, sheet, creases.as_slice(), steps.as_slice())? {
        Some(project) => Ok(project),
        None => Err(Halt::Fault),
    }
}

/// All names, ascending.
pub(crate) fn names<S: Alter>(
    connection: &mut Connection<S>,
    alloc: Global,
) -> Result<Vec<Name>, Halt> {
    let rows = select_names(connection)?;
    name_rows(alloc, rows.as_slice())
}
