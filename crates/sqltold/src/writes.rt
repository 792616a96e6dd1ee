//! What is written into the tables, a statement each.
use crate::halt::Halt;
use pattern::{Colour, Crease, put_seg};
use rows::ProjectRow;
use sqlite::{Alter, Connection, Error, Transaction, params};

const PROJECT: &str =
    "CREATE TABLE IF NOT EXISTS project (name TEXT PRIMARY KEY, rev INTEGER NOT NULL, \
        low INTEGER NOT NULL, mark INTEGER NOT NULL, high INTEGER NOT NULL)";

const CREASE: &str =
    "CREATE TABLE IF NOT EXISTS crease (name TEXT NOT NULL, seg TEXT NOT NULL, colour TEXT NOT NULL, \
        PRIMARY KEY (name, seg))";

const STEP: &str =
    "CREATE TABLE IF NOT EXISTS step (name TEXT NOT NULL, pos INTEGER NOT NULL, body TEXT NOT NULL, \
        PRIMARY KEY (name, pos))";

const SHEET: &str =
    "CREATE TABLE IF NOT EXISTS sheet (name TEXT PRIMARY KEY, w INTEGER NOT NULL, h INTEGER NOT NULL)";

/// Makes the tables that are not there.
pub(crate) fn make_tables<S: Alter>(connection: &mut Connection<S>) -> Result<(), Halt> {
    connection.execute(PROJECT, &[])?;
    connection.execute(CREASE, &[])?;
    connection.execute(STEP, &[])?;
    connection.execute(SHEET, &[])?;
    Ok(())
}

/// Puts the row of a new project in.
pub(crate) fn insert_project<S: Alter>(
    tx: &mut Transaction<'_, S>,
    name: &str,
) -> Result<(), Error> {
    tx.execute(
        "INSERT INTO project (name, rev, low, mark, high) VALUES (?1, ?2, ?3, ?4, ?5)",
        params![name, 0i64, 0i64, 0i64, 0i64],
    )?;
    Ok(())
}

/// Puts the sheet of a new project in.
pub(crate) fn insert_sheet<S: Alter>(
    tx: &mut Transaction<'_, S>,
    name: &str,
    w: u8,
    h: u8,
) -> Result<(), Error> {
    tx.execute(
        "INSERT INTO sheet (name, w, h) VALUES (?1, ?2, ?3)",
        params![name, u32::from(w), u32::from(h)],
    )?;
    Ok(())
}

/// Puts the numbers into the row of a project.
pub(crate) fn update_project<S: Alter>(
    tx: &mut Transaction<'_, S>,
    name: &str,
    row: &ProjectRow,
) -> Result<(), Halt> {
    let [rev, low] = [bound(row.rev)?, bound(row.low)?];
    let [mark, high] = [bound(row.mark)?, bound(row.high)?];
    let changed = tx.execute(
        "UPDATE project SET rev = ?2, low = ?3, mark = ?4, high = ?5 WHERE name = ?1",
        params![name, rev, low, mark, high],
    )?;
    one(changed)
}

/// Takes a crease out.
pub(crate) fn delete_crease<S: Alter>(
    tx: &mut Transaction<'_, S>,
    name: &str,
    crease: &Crease,
) -> Result<(), Halt> {
    let seg = put_seg(&crease.seg);
    let changed = tx.execute(
        "DELETE FROM crease WHERE name = ?1 AND seg = ?2 AND colour = ?3",
        params![name, text(seg.as_slice())?, letter(crease.colour)],
    )?;
    one(changed)
}

/// Puts a crease in.
pub(crate) fn insert_crease<S: Alter>(
    tx: &mut Transaction<'_, S>,
    name: &str,
    crease: &Crease,
) -> Result<(), Halt> {
    let seg = put_seg(&crease.seg);
    tx.execute(
        "INSERT INTO crease (name, seg, colour) VALUES (?1, ?2, ?3)",
        params![name, text(seg.as_slice())?, letter(crease.colour)],
    )?;
    Ok(())
}

/// Takes out the steps above a position.
pub(crate) fn delete_steps_above<S: Alter>(
    tx: &mut Transaction<'_, S>,
    name: &str,
    pos: u64,
) -> Result<(), Halt> {
    tx.execute(
        "DELETE FROM step WHERE name = ?1 AND pos > ?2",
        params![name, bound(pos)?],
    )?;
    Ok(())
}

/// Takes out the step at a position.
pub(crate) fn delete_step<S: Alter>(
    tx: &mut Transaction<'_, S>,
    name: &str,
    pos: u64,
) -> Result<(), Halt> {
    let changed = tx.execute(
        "DELETE FROM step WHERE name = ?1 AND pos = ?2",
        params![name, bound(pos)?],
    )?;
    one(changed)
}

/// Puts a step in.
pub(crate) fn insert_step<S: Alter>(
    tx: &mut Transaction<'_, S>,
    name: &str,
    pos: u64,
    body: &[u8],
) -> Result<(), Halt> {
    tx.execute(
        "INSERT INTO step (name, pos, body) VALUES (?1, ?2, ?3)",
        params![name, bound(pos)?, text(body)?],
    )?;
    Ok(())
}

/// A number as it is bound.
pub(crate) fn bound(number: u64) -> Result<i64, Halt> {
    i64::try_from(number).map_err(|_| Halt::Fault)
}

/// Bytes of a text as they are bound.
fn text(bytes: &[u8]) -> Result<&str, Halt> {
    str::from_utf8(bytes).map_err(|_| Halt::Fault)
}

/// The letter of a colour.
fn letter(colour: Colour) -> &'static str {
    match colour {
        Colour::M => "M",
        Colour::V => "V",
        Colour::A => "A",
    }
}

/// Just one row is to be changed.
fn one(changed: usize) -> Result<(), Halt> {
    if changed == 1 {
        Ok(())
    } else {
        Err(Halt::Fault)
    }
}
