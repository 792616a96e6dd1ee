//! A new project in the tables.
use crate::halt::Halt;
use crate::reads::{is_there, select_creases, select_steps};
use crate::writes::{insert_project, insert_sheet};
use sheet::Sheet;
use sqlite::{Alter, Connection};

/// Puts a project in, without creases and without steps, unless there is one under the name.
pub(crate) fn create<S: Alter>(
    connection: &mut Connection<S>,
    name: &str,
    sheet: Sheet,
) -> Result<bool, Halt> {
    if is_there(connection, name)? {
        return Ok(false);
    }
    if has_strays(connection, name)? {
        return Err(Halt::Fault);
    }
    put(connection, name, sheet)?;
    Ok(true)
}

/// Whether there are creases or steps under a name without a project.
fn has_strays<S: Alter>(connection: &mut Connection<S>, name: &str) -> Result<bool, Halt> {
    let creases = select_creases(connection, name)?;
    let steps = select_steps(connection, name)?;
    Ok(!creases.is_empty() || !steps.is_empty())
}

/// Puts the rows of a new project in: both, or neither.
fn put<S: Alter>(connection: &mut Connection<S>, name: &str, sheet: Sheet) -> Result<(), Halt> {
    if !connection.is_autocommit() {
        return Err(Halt::Fault);
    }
    let mut tx = connection.transaction();
    insert_project(&mut tx, name)?;
    insert_sheet(&mut tx, name, sheet.w(), sheet.h())?;
    tx.commit()?;
    Ok(())
}
