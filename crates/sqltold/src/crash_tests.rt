//! What a crash leaves of the tables, on disks in memory that stop after some calls.
ghost use Rattle.std.specs.Prelude.{◌≡◌, false};

use crate::SqlTold;
use crate::tests::{BLANK, CROSSED, DIAGONAL, stands, step};
use projects::{Keeper, Name};
use sheet::Sheet;
use sqlite::{Alter, Connection, Files, Options};
use sqlite_disk::{Crash, Fuse, Memory};
use std::alloc::Global;
use std::test::Fail;

/// Makes a project and draws two creases, one command after another, and counts those that were
/// acknowledged.
fn work<S: Alter>(alloc: Global, keeper: &mut SqlTold<S>) -> Result<u64, Fail> {
    let name = Name::new(b"sq")?;
    if keeper.create(alloc, &name, Sheet::square()).is_err() {
        return Ok(0);
    }
    draw(alloc, keeper, &name)
}

/// The same, where the project is there.
fn draw<S: Alter>(alloc: Global, keeper: &mut SqlTold<S>, name: &Name) -> Result<u64, Fail> {
    let first = step(alloc, BLANK, DIAGONAL)?;
    if keeper.commit(alloc, name, &first).is_err() {
        return Ok(1);
    }
    let second = step(alloc, DIAGONAL, CROSSED)?;
    if keeper.commit(alloc, name, &second).is_err() {
        return Ok(2);
    }
    Ok(3)
}

/// Whether the tables are those after so many commands.
fn is_after<S: Alter>(alloc: Global, keeper: &mut SqlTold<S>, count: u64) -> Result<bool, Fail> {
    let name = Name::new(b"sq")?;
    let found = keeper.fetch(alloc, &name)?;
    match count {
        0 => Ok(found.is_none()),
        1 => stands(alloc, found, 0, BLANK),
        2 => stands(alloc, found, 1, DIAGONAL),
        _ => stands(alloc, found, 2, CROSSED),
    }
}

/// Works on files of which one stops after some calls, and gives them back with the count.
fn stopped(alloc: Global, log: u64, db: u64) -> Result<(u64, Files<Fuse<Memory>>), Fail> {
    let files = Files {
        log: Fuse::new(Memory::new(alloc), log),
        db: Fuse::new(Memory::new(alloc), db),
    };
    match Connection::open_files(alloc, files, Options::new(7)) {
        Ok(connection) => {
            let mut keeper = SqlTold::new(connection);
            let mut count = 0;
            if keeper.attach(alloc, "disk").is_ok() {
                count = work(alloc, &mut keeper)?;
            }
            Ok((count, keeper.connection.into_store().close()))
        }
        Err((_, left)) => Ok((0, left.into_files())),
    }
}

/// Whether a keeper over this connection has the tables after so many commands, or after one more.
fn is_kept<S: Alter + Drop>(
    alloc: Global,
    connection: Connection<S>,
    count: u64,
) -> Result<bool, Fail>
    requires { connection.in_transaction ≡ false }
{
    let mut keeper = SqlTold::new(connection);
    keeper.attach(alloc, "disk")?;
    Ok(
        is_after(alloc, &mut keeper, count)?
            || is_after(alloc, &mut keeper, count.saturating_add(1))?,
    )
}

/// Stops one of the two files after some calls, opens both again, and says how many commands were
/// acknowledged, and whether the tables are those after these, or with the stopped one done too.
fn after_stop(alloc: Global, log: u64, db: u64) -> Result<(u64, bool), Fail> {
    let (count, mut files) = stopped(alloc, log, db)?;
    files.log.crash();
    files.db.crash();
    match Connection::open_files(alloc, files, Options::new(8)) {
        Ok(connection) => Ok((count, is_kept(alloc, connection, count)?)),
        Err(_) => Err(Fail::from("not opened again")),
    }
}

#[test]
fn acknowledged_commands_stay(rt: HostRuntime) -> Result<(), Fail> {
    for calls in 1..2000u64 {
        let (count, kept) = after_stop(rt.alloc(), calls, u64::MAX)?;
        assert!(rt; kept, "the log stops after {calls} calls");
        if count == 3 {
            return Ok(());
        }
    }
    panic!(rt; "always stopped");
}

#[test]
fn acknowledged_commands_stay_in_the_file(rt: HostRuntime) -> Result<(), Fail> {
    for calls in 1..2000u64 {
        let (count, kept) = after_stop(rt.alloc(), u64::MAX, calls)?;
        assert!(rt; kept, "the file stops after {calls} calls");
        if count == 3 {
            return Ok(());
        }
    }
    panic!(rt; "always stopped");
}
