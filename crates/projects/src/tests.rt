//! Projects and a keeper in memory, worked by hand.

use crate::{Keeper, KeeperEnd, MemKeeper, Name, Project, Step};
use history::History;
use pattern::{Delta, between, pattern_bytes, read_pattern};
use sheet::Sheet;
use std::alloc::Global;
use std::test::Fail;

const BLANK: &[u8] = b"q2 1\n";

const ACROSS: &[u8] = b"q2 1\nM 0,1/2 1,1/2\n";

const CROSSED: &[u8] = b"q2 1\nV 0,1/2 1,1/2\nM 1/2,0 1/2,1\n";

/// The delta from the pattern of one native text to that of another.
fn delta(alloc: Global, from: &[u8], to: &[u8]) -> Result<Delta, Fail> {
    let old = read_pattern(alloc, from)?;
    let new = read_pattern(alloc, to)?;
    if old.sheet() != new.sheet() {
        return Err(Fail::from("two sheets"));
    }
    Ok(between(alloc, &old, &new)?)
}

/// The history of one who drew across, changed it to crossed, and took that back.
fn history(alloc: Global) -> Result<History, Fail> {
    let mut history = History::new(alloc);
    history.push(delta(alloc, BLANK, ACROSS)?)?;
    history.push(delta(alloc, ACROSS, CROSSED)?)?;
    if history.can_undo() {
        history.back()?;
    }
    Ok(history)
}

/// Whether the pattern of this text is the present one of a project with that history.
fn may_be(alloc: Global, rev: u64, text: &[u8], history: &History) -> Result<bool, Fail> {
    let pattern = read_pattern(alloc, text)?;
    let history = history.copy(alloc)?;
    Ok(Project::new(alloc, rev, pattern, history)?.is_some())
}

/// Whether a project has this rev and the pattern of this text.
fn stands(alloc: Global, project: &Project, rev: u64, text: &[u8]) -> Result<bool, Fail> {
    let bytes = pattern_bytes(alloc, project.pattern())?;
    Ok(project.rev() == rev && bytes.as_slice() == text)
}

/// Whether the keeper has a project of this rev and text under the name.
fn has(
    alloc: Global,
    keeper: &mut MemKeeper,
    name: &Name,
    rev: u64,
    text: &[u8],
) -> Result<bool, Fail> {
    match keeper.fetch(alloc, name)? {
        Some(project) => stands(alloc, &project, rev, text),
        None => Ok(false),
    }
}

/// Commits a step where the project is there and the step fits, and says whether it did.
fn commit(
    alloc: Global,
    keeper: &mut MemKeeper,
    name: &Name,
    step: &Step,
) -> Result<bool, KeeperEnd> {
    let Some(project) = keeper.fetch(alloc, name)? else {
        return Ok(false);
    };
    if project.rev() >= 1_000_000_000_000 || !project.fits(step) {
        return Ok(false);
    }
    keeper.commit(alloc, name, step)?;
    Ok(true)
}

/// Undoes where the project is there and has something to undo, with any keeper.
fn undo<K: Keeper>(alloc: Global, keeper: &mut K, name: &Name) -> Result<bool, KeeperEnd> {
    let Some(project) = keeper.fetch(alloc, name)? else {
        return Ok(false);
    };
    if project.rev() >= 1_000_000_000_000 || !project.fits(&Step::Undo) {
        return Ok(false);
    }
    keeper.commit(alloc, name, &Step::Undo)?;
    Ok(true)
}

/// A keeper with one new project, whose commits of these numbers fail.
fn keeper(alloc: Global, name: &Name, fail: &[u64]) -> Result<MemKeeper, Fail> {
    let mut keeper = MemKeeper::new(alloc, fail.to_vec(alloc)?, Vec::new(alloc));
    let _new = keeper.create(alloc, name, Sheet::square())?;
    Ok(keeper)
}

#[test]
fn what_a_project_is(rt: HostRuntime) -> Result<(), Fail> {
    let alloc = rt.alloc();
    let history = history(alloc)?;
    assert!(rt; may_be(alloc, 1_000_000_000_000, ACROSS, &history)?);
    assert!(rt; !may_be(alloc, 1_000_000_000_001, ACROSS, &history)?);
    // The past leads to across alone.
    assert!(rt; !may_be(alloc, 7, CROSSED, &history)?);
    Ok(())
}

#[test]
fn a_future_that_does_not_fit(rt: HostRuntime) -> Result<(), Fail> {
    let alloc = rt.alloc();
    let mut history = History::new(alloc);
    history.push(delta(alloc, ACROSS, CROSSED)?)?;
    if history.can_undo() {
        history.back()?;
    }
    assert!(rt; !may_be(alloc, 0, BLANK, &history)?);
    Ok(())
}

#[test]
fn a_copy_is_equal(rt: HostRuntime) -> Result<(), Fail> {
    let alloc = rt.alloc();
    let now = read_pattern(alloc, ACROSS)?;
    let project = Project::new(alloc, 7, now, history(alloc)?)?.expect(&rt, "a project");
    let copy = project.copy(alloc)?;
    assert!(rt; stands(alloc, &copy, 7, ACROSS)?);
    assert!(rt; copy.history().can_undo() && copy.history().can_redo());
    Ok(())
}

#[test]
fn a_commit_fails_at_its_number(rt: HostRuntime) -> Result<(), Fail> {
    let alloc = rt.alloc();
    let name = Name::new(b"sq")?;
    let mut keeper = keeper(alloc, &name, &[1])?;
    let step = Step::Do(delta(alloc, BLANK, CROSSED)?);
    assert!(rt; commit(alloc, &mut keeper, &name, &step) == Err(KeeperEnd::Failed));
    assert!(rt; has(alloc, &mut keeper, &name, 0, BLANK)?);
    assert!(rt; commit(alloc, &mut keeper, &name, &step) == Ok(true));
    assert!(rt; has(alloc, &mut keeper, &name, 1, CROSSED)?);
    Ok(())
}

#[test]
fn undone_and_redone(rt: HostRuntime) -> Result<(), Fail> {
    let alloc = rt.alloc();
    let name = Name::new(b"sq")?;
    let mut keeper = keeper(alloc, &name, &[])?;
    let step = Step::Do(delta(alloc, BLANK, CROSSED)?);
    assert!(rt; undo(alloc, &mut keeper, &name) == Ok(false));
    assert!(rt; commit(alloc, &mut keeper, &name, &step) == Ok(true));
    assert!(rt; undo(alloc, &mut keeper, &name) == Ok(true));
    assert!(rt; has(alloc, &mut keeper, &name, 2, BLANK)?);
    assert!(rt; commit(alloc, &mut keeper, &name, &Step::Redo) == Ok(true));
    assert!(rt; has(alloc, &mut keeper, &name, 3, CROSSED)?);
    assert!(rt; commit(alloc, &mut keeper, &name, &Step::Redo) == Ok(false));
    Ok(())
}

#[test]
fn other_calls_fail_at_their_numbers(rt: HostRuntime) -> Result<(), Fail> {
    let alloc = rt.alloc();
    let mut keeper = MemKeeper::new(alloc, Vec::new(alloc), [1u64, 3].to_vec(alloc)?);
    let name = Name::new(b"sq")?;
    assert!(rt; keeper.attach(alloc, "p.db") == Err(KeeperEnd::Failed));
    assert!(rt; keeper.create(alloc, &name, Sheet::square()) == Ok(true));
    assert!(rt; keeper.create(alloc, &name, Sheet::square()) == Err(KeeperEnd::Failed));
    assert!(rt; keeper.create(alloc, &name, Sheet::square()) == Ok(false));
    Ok(())
}

#[test]
fn names_ascend(rt: HostRuntime) -> Result<(), Fail> {
    let alloc = rt.alloc();
    let mut keeper = keeper(alloc, &Name::new(b"b")?, &[])?;
    let blank = Project::new(alloc, 5, read_pattern(alloc, BLANK)?, History::new(alloc))?;
    keeper.hold(Name::new(b"a")?, blank.expect(&rt, "a project"))?;
    let names = keeper.names(alloc)?;
    assert!(rt; names.len() == 2);
    assert!(rt; names[0].text() == "a" && names[1].text() == "b");
    Ok(())
}
