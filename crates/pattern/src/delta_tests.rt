//! Deltas between small patterns, worked by hand.
use crate::{Crease, Delta, Pattern, between, pattern_bytes, read_pattern};
use ports::Listed;
use std::alloc::Global;
use std::test::Fail;

/// The creases of a native text.
fn creases(alloc: Global, text: &[u8]) -> Result<Vec<Crease>, Fail> {
    Ok(read_pattern(alloc, text)?.creases().collect(alloc)?)
}

/// A delta by the native texts of what leaves and of what comes.
fn delta(alloc: Global, removed: &[u8], added: &[u8]) -> Result<Delta, Fail> {
    Ok(Delta {
        removed: Listed::new(creases(alloc, removed)?),
        added: Listed::new(creases(alloc, added)?),
    })
}

/// Whether the delta fits the pattern and leads to the pattern of this text.
fn leads(alloc: Global, old: &Pattern, delta: &Delta, text: &[u8]) -> Result<bool, Fail> {
    if !old.fits(delta) {
        return Ok(false);
    }
    let new = old.applied(alloc, delta)?;
    Ok(pattern_bytes(alloc, &new)?.as_slice() == text)
}

/// The delta between two patterns, if they are on one sheet.
fn step(alloc: Global, old: &Pattern, new: &Pattern) -> Result<Option<Delta>, Fail> {
    let from = old.sheet();
    let to = new.sheet();
    if from.w() != to.w() {
        return Ok(None);
    }
    if from.h() != to.h() {
        return Ok(None);
    }
    Ok(Some(between(alloc, old, new)?))
}

/// Whether there is a pattern, and this is its text.
fn is_text(alloc: Global, pattern: &Option<Pattern>, text: &[u8]) -> Result<bool, Fail> {
    match pattern {
        Some(pattern) => Ok(pattern_bytes(alloc, pattern)?.as_slice() == text),
        None => Ok(false),
    }
}

const ACROSS: &[u8] = b"q2 1\nM 0,1/2 1,1/2\n";

const CROSSED: &[u8] = b"q2 1\nV 0,1/2 1,1/2\nM 1/2,0 1/2,1\n";

#[test]
fn a_delta_leads_there_and_back(rt: HostRuntime) -> Result<(), Fail> {
    let alloc = rt.alloc();
    let old = read_pattern(alloc, ACROSS)?;
    let new = read_pattern(alloc, CROSSED)?;
    // The crease across changes its colour, so it leaves as a mountain and comes as a valley.
    let there = step(alloc, &old, &new)?.expect(&rt, "a delta");
    assert!(rt; there.removed.as_slice().len() == 1 && there.added.as_slice().len() == 2);
    assert!(rt; leads(alloc, &old, &there, CROSSED)?);
    let again = there.copy(alloc)?;
    assert!(rt; leads(alloc, &old, &again, CROSSED)?);
    assert!(rt; leads(alloc, &new, &there.inverse(), ACROSS)?);
    Ok(())
}

#[test]
fn other_deltas_do_not_fit(rt: HostRuntime) -> Result<(), Fail> {
    let alloc = rt.alloc();
    let blank = b"q2 1\n";
    let old = read_pattern(alloc, b"q2 1\nM 0,1/2 1/2,1/2\n")?;
    // It is there, but not with this colour.
    assert!(rt; !old.fits(&delta(alloc, b"q2 1\nV 0,1/2 1/2,1/2\n", blank)?));
    // It overlaps the one that stays, or lies on it.
    assert!(rt; !old.fits(&delta(alloc, blank, b"q2 1\nM 1/4,1/2 3/4,1/2\n")?));
    assert!(rt; !old.fits(&delta(alloc, blank, b"q2 1\nV 0,1/2 1/2,1/2\n")?));
    // It touches the one that stays.
    assert!(rt; old.fits(&delta(alloc, blank, b"q2 1\nM 1/2,1/2 3/4,1/2\n")?));
    // A list that does not ascend, with one crease twice.
    let upright = b"q2 1\nM 1/2,0 1/2,1\n";
    let mut twice = creases(alloc, upright)?;
    for crease in creases(alloc, upright)? {
        twice.push(crease)?;
    }
    let doubled = Delta {
        removed: Listed::new(Vec::new(alloc)),
        added: Listed::new(twice),
    };
    assert!(rt; !old.fits(&doubled));
    Ok(())
}

#[test]
fn a_delta_is_taken_in_place(rt: HostRuntime) -> Result<(), Fail> {
    let alloc = rt.alloc();
    let blank = b"q2 2 2 1\n";
    // A crease at x = 1, where the square has a side, gives way to two that cross in 3/2,1/2.
    let before = b"q2 2 2 1\nM 0,0 1,1\nV 1,0 1,1\n";
    let after = b"q2 2 2 1\nM 0,0 1,1\nM 1,0 2,1\nA 1,1 2,0\n";
    let there = delta(
        alloc,
        b"q2 2 2 1\nV 1,0 1,1\n",
        b"q2 2 2 1\nM 1,0 2,1\nA 1,1 2,0\n",
    )?;
    let new = read_pattern(alloc, before)?.advance(&there)?;
    assert!(rt; is_text(alloc, &new, after)?);
    let old = read_pattern(alloc, after)?.retreat(&there)?;
    assert!(rt; is_text(alloc, &old, before)?);
    // Backwards it takes out what is not there.
    assert!(rt; read_pattern(alloc, before)?.retreat(&there)?.is_none());
    // It overlaps one that stays.
    let over = delta(alloc, blank, b"q2 2 2 1\nM 1/2,1/2 3/4,3/4\n")?;
    assert!(rt; read_pattern(alloc, before)?.advance(&over)?.is_none());
    // It is on a side of the sheet, and was none on a wider one.
    let side = delta(alloc, blank, b"q2 2 3 1\nM 2,0 2,1\n")?;
    assert!(rt; read_pattern(alloc, before)?.advance(&side)?.is_none());
    Ok(())
}
