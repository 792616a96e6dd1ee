//! Commands and their replies, worked by hand.

use crate::{Cause, Change, Command, Desk, Keeper, MemKeeper, Name, Project, Reply};
use history::History;
use lattice::Lattice;
use pattern::{pattern_bytes, read_pattern};
use ports::Listed;
use sheet::Sheet;
use std::alloc::Global;
use std::test::Fail;

const BLANK: &[u8] = b"q2 1\n";

/// The reply to a command.
fn act(alloc: Global, keeper: &mut MemKeeper, command: &Command) -> Result<Reply, Fail> {
    Ok(Desk::new(alloc)?.act(alloc, keeper, command)?)
}

/// A change of the project, at any rev.
fn change(change: Change) -> Result<Command, Fail> {
    let name = Name::new(b"sq")?;
    let rev = None;
    Ok(Command::Change { name, rev, change })
}

/// An import of a CP text by the usual lattice.
fn import(alloc: Global, text: &[u8]) -> Result<Change, Fail> {
    let Some(lattice) = Lattice::new(64, 128, 1000) else {
        return Err(Fail::from("no lattice"));
    };
    let text = Listed::new(text.to_vec(alloc)?);
    Ok(Change::Import { lattice, text })
}

/// A keeper that has a project without creases at this rev.
fn keeper(alloc: Global, rev: u64) -> Result<MemKeeper, Fail> {
    let mut keeper = MemKeeper::new(alloc, Vec::new(alloc), Vec::new(alloc));
    let blank = read_pattern(alloc, BLANK)?;
    match Project::new(alloc, rev, blank, History::new(alloc))? {
        Some(project) => keeper.hold(Name::new(b"sq")?, project)?,
        None => return Err(Fail::from("no project")),
    }
    Ok(keeper)
}

/// A keeper without projects whose first call fails.
fn failing(alloc: Global) -> Result<MemKeeper, Fail> {
    Ok(MemKeeper::new(alloc, Vec::new(alloc), [1u64].to_vec(alloc)?))
}

/// Whether the reply is a refusal with this cause.
fn is_refused(reply: &Reply, expected: Cause) -> bool {
    match reply {
        Reply::Refused(cause) => *cause == expected,
        _ => false,
    }
}

/// Whether the reply is that so many lines were drawn and so many dropped, and the rev is 1.
fn is_imported(reply: &Reply, lines: u64, others: u64) -> bool {
    match reply {
        Reply::Imported {
            rev,
            drawn,
            dropped,
        } => *rev == 1 && *drawn == lines && *dropped == others,
        _ => false,
    }
}

/// Whether the reply is that the keeper failed.
fn has_failed(reply: &Reply) -> bool {
    match reply {
        Reply::KeeperFailed => true,
        _ => false,
    }
}

/// Whether the project under the name has the pattern of this text.
fn has_text(alloc: Global, keeper: &mut MemKeeper, name: &[u8], text: &[u8]) -> Result<bool, Fail> {
    match keeper.fetch(alloc, &Name::new(name)?)? {
        Some(project) => {
            let bytes = pattern_bytes(alloc, project.pattern())?;
            Ok(bytes.as_slice() == text)
        }
        None => Ok(false),
    }
}

/// A keeper that has the projects `a` and `b` without creases.
fn two_projects(alloc: Global) -> Result<MemKeeper, Fail> {
    let mut keeper = MemKeeper::new(alloc, Vec::new(alloc), Vec::new(alloc));
    let _first = keeper.create(alloc, &Name::new(b"a")?, Sheet::square())?;
    let _second = keeper.create(alloc, &Name::new(b"b")?, Sheet::square())?;
    Ok(keeper)
}

/// The reply of a desk to a change of the project under a name, at any rev.
fn changed(
    alloc: Global,
    desk: &mut Desk,
    keeper: &mut MemKeeper,
    name: &[u8],
    change: Change,
) -> Result<Reply, Fail> {
    let name = Name::new(name)?;
    let rev = None;
    Ok(desk.act(alloc, keeper, &Command::Change { name, rev, change })?)
}

#[test]
fn a_full_rev(rt: HostRuntime) -> Result<(), Fail> {
    let alloc = rt.alloc();
    let mut keeper = keeper(alloc, 1_000_000_000_000)?;
    let reply = act(alloc, &mut keeper, &change(Change::Undo)?)?;
    assert!(rt; is_refused(&reply, Cause::RevFull));
    Ok(())
}

#[test]
fn an_undo_takes_all_lines_back(rt: HostRuntime) -> Result<(), Fail> {
    let alloc = rt.alloc();
    let mut keeper = keeper(alloc, 0)?;
    let lines =
        b"2 -200 -200 200 200\n3 -200 200 200 -200\n2 -200 -200 200 200\n1 -200 -200 200 -200";
    let reply = act(alloc, &mut keeper, &change(import(alloc, lines)?)?)?;
    assert!(rt; is_imported(&reply, 3, 1));
    assert!(rt; has_text(alloc, &mut keeper, b"sq", b"q2 1\nM 0,0 1,1\nV 0,1 1,0\n")?);
    let _done = act(alloc, &mut keeper, &change(Change::Undo)?)?;
    assert!(rt; has_text(alloc, &mut keeper, b"sq", BLANK)?);
    Ok(())
}

#[test]
fn a_create_that_fails(rt: HostRuntime) -> Result<(), Fail> {
    let alloc = rt.alloc();
    let name = Name::new(b"sq")?;
    let sheet = Sheet::square();
    let reply = act(alloc, &mut failing(alloc)?, &Command::New { name, sheet })?;
    assert!(rt; has_failed(&reply));
    Ok(())
}

#[test]
fn names_that_fail(rt: HostRuntime) -> Result<(), Fail> {
    let alloc = rt.alloc();
    let reply = act(alloc, &mut failing(alloc)?, &Command::List)?;
    assert!(rt; has_failed(&reply));
    Ok(())
}

/// The pattern of one project is never taken for that of the other.
#[test]
fn two_projects_in_turn(rt: HostRuntime) -> Result<(), Fail> {
    let alloc = rt.alloc();
    let mut keeper = two_projects(alloc)?;
    let mut desk = Desk::new(alloc)?;
    let up = import(alloc, b"2 -200 -200 200 200")?;
    let down = import(alloc, b"3 -200 200 200 -200")?;
    let again = import(alloc, b"3 -200 200 200 -200")?;
    let first = changed(alloc, &mut desk, &mut keeper, b"a", up)?;
    assert!(rt; is_imported(&first, 1, 0));
    let second = changed(alloc, &mut desk, &mut keeper, b"b", down)?;
    assert!(rt; is_imported(&second, 1, 0));
    let _third = changed(alloc, &mut desk, &mut keeper, b"a", again)?;
    assert!(rt; has_text(alloc, &mut keeper, b"a", b"q2 1\nM 0,0 1,1\nV 0,1 1,0\n")?);
    assert!(rt; has_text(alloc, &mut keeper, b"b", b"q2 1\nV 0,1 1,0\n")?);
    Ok(())
}

/// A refusal leaves what is kept, and it serves neither project wrongly.
#[test]
fn refused_in_turn(rt: HostRuntime) -> Result<(), Fail> {
    let alloc = rt.alloc();
    let mut keeper = two_projects(alloc)?;
    let mut desk = Desk::new(alloc)?;
    let up = import(alloc, b"2 -200 -200 200 200")?;
    let _first = changed(alloc, &mut desk, &mut keeper, b"a", up)?;
    let second = changed(alloc, &mut desk, &mut keeper, b"b", Change::Undo)?;
    assert!(rt; is_refused(&second, Cause::NothingToUndo));
    let third = changed(alloc, &mut desk, &mut keeper, b"a", Change::Redo)?;
    assert!(rt; is_refused(&third, Cause::NothingToRedo));
    let _fourth = changed(alloc, &mut desk, &mut keeper, b"a", Change::Undo)?;
    assert!(rt; has_text(alloc, &mut keeper, b"a", BLANK)?);
    Ok(())
}
