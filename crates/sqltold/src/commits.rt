//! A step of a project in the tables.
use crate::halt::Halt;
use crate::marks::{done, redone, undone};
use crate::reads::project_row;
use crate::writes::{
    bound, delete_crease, delete_step, delete_steps_above, insert_crease, insert_step,
    update_project,
};
use pattern::{Crease, Delta, delta_bytes, read_delta};
use projects::Step;
use rows::ProjectRow;
use sqlite::{Alter, Connection, Transaction, params};
use std::alloc::Global;

/// Takes a step of the project under a name: all rows that it changes, or none.
pub(crate) fn commit<S: Alter>(
    connection: &mut Connection<S>,
    alloc: Global,
    name: &str,
    step: &Step,
) -> Result<(), Halt> {
    if !connection.is_autocommit() {
        return Err(Halt::Fault);
    }
    let mut tx = connection.transaction();
    take_step(&mut tx, alloc, name, step)?;
    tx.commit()?;
    Ok(())
}

/// The same inside a transaction.
fn take_step<S: Alter>(
    tx: &mut Transaction<'_, S>,
    alloc: Global,
    name: &str,
    step: &Step,
) -> Result<(), Halt> {
    let row = row_of(tx, name)?;
    match step {
        Step::Do(delta) => take_delta(tx, alloc, name, &row, delta),
        Step::Undo => take_back(tx, alloc, name, &row),
        Step::Redo => take_again(tx, alloc, name, &row),
    }
}

/// The row of the project under a name.
fn row_of<S: Alter>(tx: &mut Transaction<'_, S>, name: &str) -> Result<ProjectRow, Halt> {
    let rows = tx.query_all(
        "SELECT rev, low, mark, high FROM project WHERE name = ?1",
        params![name],
    )?;
    match project_row(rows.as_slice())? {
        Some(row) => Ok(row),
        None => Err(Halt::Fault),
    }
}

/// The delta of the step at a position.
fn delta_at<S: Alter>(
    tx: &mut Transaction<'_, S>,
    alloc: Global,
    name: &str,
    pos: u64,
) -> Result<Delta, Halt> {
    let rows = tx.query_all(
        "SELECT body FROM step WHERE name = ?1 AND pos = ?2",
        params![name, bound(pos)?],
    )?;
    let Some(row) = rows.first() else {
        return Err(Halt::Fault);
    };
    let body: String = row.get(0)?;
    match read_delta(alloc, body.as_bytes())? {
        Some(delta) => Ok(delta),
        None => Err(Halt::Fault),
    }
}

/// Takes a delta, whose step comes in the place of the future. Of the steps the last 1,000 are kept.
fn take_delta<S: Alter>(
    tx: &mut Transaction<'_, S>,
    alloc: Global,
    name: &str,
    row: &ProjectRow,
    delta: &Delta,
) -> Result<(), Halt> {
    let Some(next) = done(row) else {
        return Err(Halt::Fault);
    };
    let body = delta_bytes(alloc, delta)?;
    put_step(tx, name, row, &next, body.as_slice())?;
    exchange(tx, name, delta.removed.as_slice(), delta.added.as_slice())?;
    update_project(tx, name, &next)
}

/// Puts the step of a delta in, after the past. The future goes, and the oldest step that is not kept.
fn put_step<S: Alter>(
    tx: &mut Transaction<'_, S>,
    name: &str,
    row: &ProjectRow,
    next: &ProjectRow,
    body: &[u8],
) -> Result<(), Halt> {
    delete_steps_above(tx, name, row.mark)?;
    insert_step(tx, name, next.mark, body)?;
    if next.low == row.low {
        return Ok(());
    }
    delete_step(tx, name, next.low)
}

/// Takes the last delta of the past back.
fn take_back<S: Alter>(
    tx: &mut Transaction<'_, S>,
    alloc: Global,
    name: &str,
    row: &ProjectRow,
) -> Result<(), Halt> {
    let Some(next) = undone(row) else {
        return Err(Halt::Fault);
    };
    let delta = delta_at(tx, alloc, name, row.mark)?;
    exchange(tx, name, delta.added.as_slice(), delta.removed.as_slice())?;
    update_project(tx, name, &next)
}

/// Takes the next delta of the future again.
fn take_again<S: Alter>(
    tx: &mut Transaction<'_, S>,
    alloc: Global,
    name: &str,
    row: &ProjectRow,
) -> Result<(), Halt> {
    let Some(next) = redone(row) else {
        return Err(Halt::Fault);
    };
    let delta = delta_at(tx, alloc, name, next.mark)?;
    exchange(tx, name, delta.removed.as_slice(), delta.added.as_slice())?;
    update_project(tx, name, &next)
}

/// Takes some creases out and puts others in.
fn exchange<S: Alter>(
    tx: &mut Transaction<'_, S>,
    name: &str,
    gone: &[Crease],
    come: &[Crease],
) -> Result<(), Halt> {
    take_out(tx, name, gone)?;
    put_in(tx, name, come)
}

/// Takes creases out, one after another.
fn take_out<S: Alter>(
    tx: &mut Transaction<'_, S>,
    name: &str,
    creases: &[Crease],
) -> Result<(), Halt> {
    for crease in creases {
        delete_crease(tx, name, crease)?;
    }
    Ok(())
}

/// Puts creases in, one after another.
fn put_in<S: Alter>(
    tx: &mut Transaction<'_, S>,
    name: &str,
    creases: &[Crease],
) -> Result<(), Halt> {
    for crease in creases {
        insert_crease(tx, name, crease)?;
    }
    Ok(())
}
