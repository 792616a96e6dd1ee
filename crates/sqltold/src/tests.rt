//! Keepers over tables, worked by hand.
use crate::{SqlKeeper, SqlTold};
use pattern::{between, pattern_bytes, read_pattern};
use projects::{Keeper, KeeperEnd, Name, Project, Step};
use sheet::Sheet;
use sqlite::{Alter, Connection, MemStore};
use std::alloc::Global;
use std::fs;
use std::test::Fail;

pub(crate) const BLANK: &[u8] = b"q2 1\n";

pub(crate) const DIAGONAL: &[u8] = b"q2 1\nM 0,0 1,1\n";

const VALLEY: &[u8] = b"q2 1\nV 0,0 1,1\n";

pub(crate) const CROSSED: &[u8] = b"q2 1\nM 0,0 1,1\nV 0,1 1,0\n";

/// The step from the pattern of one native text to that of another.
pub(crate) fn step(alloc: Global, from: &[u8], to: &[u8]) -> Result<Step, Fail> {
    let old = read_pattern(alloc, from)?;
    let new = read_pattern(alloc, to)?;
    if old.sheet() != new.sheet() {
        return Err(Fail::from("two sheets"));
    }
    Ok(Step::Do(between(alloc, &old, &new)?))
}

/// Whether the project has this rev and the pattern of this text.
pub(crate) fn stands(
    alloc: Global,
    project: Option<Project>,
    rev: u64,
    text: &[u8],
) -> Result<bool, Fail> {
    let Some(project) = project else {
        return Ok(false);
    };
    let bytes = pattern_bytes(alloc, project.pattern())?;
    Ok(project.rev() == rev && bytes.as_slice() == text)
}

/// A keeper over a file, with its tables.
fn opened<'a>(rt: &'a HostRuntime, path: &str) -> Result<SqlKeeper<'a>, Fail> {
    let mut keeper = SqlKeeper::new(rt);
    keeper.attach(rt.alloc(), path)?;
    Ok(keeper)
}

/// Makes a project in a file and draws a crease.
fn draw(rt: &HostRuntime, path: &str, name: &Name) -> Result<bool, Fail> {
    let mut keeper = opened(rt, path)?;
    let new = keeper.create(rt.alloc(), name, Sheet::square())?;
    keeper.commit(rt.alloc(), name, &step(rt.alloc(), BLANK, DIAGONAL)?)?;
    Ok(new)
}

/// Whether a file has the crease, and it can be undone.
fn undo(rt: &HostRuntime, path: &str, name: &Name) -> Result<bool, Fail> {
    let mut keeper = opened(rt, path)?;
    let before = keeper.fetch(rt.alloc(), name)?;
    let drawn = stands(rt.alloc(), before, 1, DIAGONAL)?;
    keeper.commit(rt.alloc(), name, &Step::Undo)?;
    let after = keeper.fetch(rt.alloc(), name)?;
    Ok(drawn && stands(rt.alloc(), after, 2, BLANK)?)
}

/// Takes away the file of a test and its log, where they are there.
fn take_away(rt: &HostRuntime) {
    let _ = fs::remove_file(rt, "p.db");
    let _ = fs::remove_file(rt, "p.db-wal");
}

#[test]
fn a_project_is_there_again(rt: HostRuntime) -> Result<(), Fail> {
    take_away(&rt);
    let name = Name::new(b"sq")?;
    assert!(rt; draw(&rt, "p.db", &name)?);
    assert!(rt; undo(&rt, "p.db", &name)?);
    assert!(rt; is_listed(&rt, "p.db", &name)?);
    take_away(&rt);
    Ok(())
}

/// Whether the file has this project and no other.
fn is_listed(rt: &HostRuntime, path: &str, name: &Name) -> Result<bool, Fail> {
    let mut keeper = opened(rt, path)?;
    let made = keeper.create(rt.alloc(), name, Sheet::square())?;
    Ok(!made && keeper.names(rt.alloc())?.len() == 1)
}

#[test]
fn other_files_cannot_be_attached(rt: HostRuntime) -> Result<(), Fail> {
    let name = Name::new(b"sq")?;
    for path in ["", ":memory:", "no/such/folder/p.db"] {
        let mut keeper = SqlKeeper::new(&rt);
        assert!(rt;
            keeper.attach(rt.alloc(), path) == Err(KeeperEnd::Failed),
            "{path}"
        );
        let made = keeper.create(rt.alloc(), &name, Sheet::square());
        assert!(rt; made == Err(KeeperEnd::Failed), "{path}");
    }
    Ok(())
}

/// A keeper in memory with a new project.
fn in_memory(alloc: Global, name: &Name) -> Result<SqlTold<MemStore>, Fail> {
    let mut keeper = SqlTold::new(Connection::open_in_memory(alloc)?);
    keeper.attach(alloc, "memory")?;
    keeper.create(alloc, name, Sheet::square())?;
    Ok(keeper)
}

/// Commits a step so many times.
fn commit<S: Alter>(
    alloc: Global,
    keeper: &mut SqlTold<S>,
    name: &Name,
    step: &Step,
) -> Result<(), KeeperEnd> {
    keeper.commit(alloc, name, step)
}

/// Turns the crease to a valley and back, so many times.
fn turn(
    alloc: Global,
    keeper: &mut SqlTold<MemStore>,
    name: &Name,
    times: usize,
) -> Result<(), Fail> {
    let there = step(alloc, DIAGONAL, VALLEY)?;
    let back = step(alloc, VALLEY, DIAGONAL)?;
    for _ in 0..times {
        commit(alloc, keeper, name, &there)?;
        commit(alloc, keeper, name, &back)?;
    }
    Ok(())
}

/// The first number of the first row that a query shows.
fn number(keeper: &mut SqlTold<MemStore>, sql: &str) -> Result<i64, Fail> {
    Ok(keeper.connection.query_row(sql, &[])?.get(0)?)
}

#[test]
fn a_thousand_steps_are_kept(rt: HostRuntime) -> Result<(), Fail> {
    let alloc = rt.alloc();
    let name = Name::new(b"sq")?;
    let mut keeper = in_memory(alloc, &name)?;
    commit(alloc, &mut keeper, &name, &step(alloc, BLANK, DIAGONAL)?)?;
    turn(alloc, &mut keeper, &name, 500)?;
    for _ in 0..1000 {
        commit(alloc, &mut keeper, &name, &Step::Undo)?;
    }
    assert!(rt; commit(alloc, &mut keeper, &name, &Step::Undo) == Err(KeeperEnd::Failed));
    assert!(rt; number(&mut keeper, "SELECT pos FROM step ORDER BY pos")? == 2);
    assert!(rt; number(&mut keeper, "SELECT pos FROM step ORDER BY pos DESC")? == 1001);
    let project = keeper.fetch(alloc, &name)?;
    assert!(rt; stands(alloc, project, 2001, DIAGONAL)?);
    Ok(())
}

/// What comes of a project that drew two creases and took one back, where the tables are then
/// changed by hand.
fn after_damage(alloc: Global, sql: &str) -> Result<Result<Option<Project>, KeeperEnd>, Fail> {
    let name = Name::new(b"sq")?;
    let mut keeper = in_memory(alloc, &name)?;
    commit(alloc, &mut keeper, &name, &step(alloc, BLANK, DIAGONAL)?)?;
    commit(alloc, &mut keeper, &name, &step(alloc, DIAGONAL, CROSSED)?)?;
    commit(alloc, &mut keeper, &name, &Step::Undo)?;
    keeper.connection.execute_batch(sql)?;
    Ok(keeper.fetch(alloc, &name))
}

#[test]
fn damage_is_found(rt: HostRuntime) -> Result<(), Fail> {
    for sql in [
        "UPDATE project SET rev = 1000000000001",
        "UPDATE project SET rev = 1",
        "UPDATE project SET rev = 'three'",
        "UPDATE project SET low = 1",
        "UPDATE project SET mark = 3",
        "UPDATE project SET mark = 2",
        "UPDATE project SET high = 3",
        "UPDATE project SET high = -1",
        "UPDATE crease SET colour = 'X'",
        "UPDATE crease SET colour = 'V'",
        "UPDATE crease SET seg = '0,0'",
        "UPDATE crease SET seg = '1,1 0,0'",
        "UPDATE crease SET seg = '0,0 2,2'",
        "DELETE FROM crease",
        "UPDATE step SET pos = 7 WHERE pos = 1",
        "UPDATE step SET body = '+ M 0,0 1,2\n'",
        "UPDATE step SET body = '+ V 0,0 1,1\n' WHERE pos = 1",
        "DELETE FROM step WHERE pos = 2",
        "UPDATE sheet SET w = 9",
        "UPDATE sheet SET h = 0",
    ] {
        let failed = match after_damage(rt.alloc(), sql)? {
            Err(KeeperEnd::Failed) => true,
            _ => false,
        };
        assert!(rt; failed, "{sql}");
    }
    let whole = after_damage(rt.alloc(), "DELETE FROM sheet")?;
    assert!(rt; stands(rt.alloc(), whole?, 3, DIAGONAL)?);
    Ok(())
}
