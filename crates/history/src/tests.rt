//! Undoing and redoing, worked by hand. The deltas are told apart by how many creases they add.
use crate::History;
use pattern::{Colour, Crease, Delta};
use plane::{Seg, read_point};
use ports::{Listed, NoMemory};
use std::alloc::Global;
use std::process::Abort;
use std::test::Fail;

/// A delta that adds so many creases.
fn delta(rt: &impl Abort, alloc: Global, count: usize) -> Result<Delta, NoMemory> {
    let p = read_point(b"0,0").ok().expect(rt, "a point");
    let q = read_point(b"1,1").ok().expect(rt, "a point");
    let crease = Crease {
        seg: Seg::new(p, q).ok().expect(rt, "a segment"),
        colour: Colour::M,
    };
    let mut added = Vec::new(alloc);
    for _ in 0..count {
        added.push(crease)?;
    }
    Ok(Delta {
        removed: Listed::new(Vec::new(alloc)),
        added: Listed::new(added),
    })
}

/// How many creases the delta adds.
fn count(delta: Option<&Delta>) -> Option<usize> {
    Some(delta?.added.as_slice().len())
}

#[test]
fn deltas_are_undone_and_redone(rt: HostRuntime) -> Result<(), Fail> {
    let mut history = History::new(rt.alloc());
    assert!(rt; !history.can_undo() && !history.can_redo());
    assert!(rt; count(history.last()) == None && count(history.next()) == None);
    for n in [1, 2, 3] {
        history.push(delta(&rt, rt.alloc(), n)?)?;
    }
    assert!(rt; history.can_undo() && !history.can_redo());
    assert!(rt; count(history.last()) == Some(3));
    if history.can_undo() {
        history.back()?;
    }
    if history.can_undo() {
        history.back()?;
    }
    assert!(rt; count(history.last()) == Some(1) && count(history.next()) == Some(2));
    if history.can_redo() {
        history.forth()?;
    }
    assert!(rt; count(history.last()) == Some(2) && count(history.next()) == Some(3));
    let copy = history.copy(rt.alloc())?;
    history.push(delta(&rt, rt.alloc(), 4)?)?;
    assert!(rt; count(history.last()) == Some(4) && !history.can_redo());
    assert!(rt; count(copy.last()) == Some(2) && count(copy.next()) == Some(3));
    Ok(())
}

#[test]
fn the_last_thousand_deltas_are_kept(rt: HostRuntime) -> Result<(), Fail> {
    let mut history = History::new(rt.alloc());
    // The first three are given up.
    for n in [1, 2, 3, 4] {
        history.push(delta(&rt, rt.alloc(), n)?)?;
    }
    for _ in 0..999 {
        history.push(delta(&rt, rt.alloc(), 0)?)?;
    }
    let mut undone = 0;
    for n in 0..1001 {
        if history.can_undo() {
            history.back()?;
            undone = n + 1;
        }
    }
    assert!(rt; undone == 1000);
    assert!(rt; count(history.last()) == None && count(history.next()) == Some(4));
    Ok(())
}
