//! Each edit on a sheet that is no square, worked by hand.

use crate::tests::{
    bisect, dir, draw, erase, extend, gives, is_refused, mirror, rabbit_ear, recolour, valley,
};
use crate::{Edit, EditBad};
use pattern::Crease;
use ports::Listed;
use sheet::{Colour, Mark};
use std::alloc::Global;
use std::test::Fail;

const WIDE: &str = "q2 2 2 1\n";

const ACROSS: &str = "q2 2 2 1\nM 0,1/2 2,1/2\n";

/// The edit that draws one crease.
fn one(alloc: Global, crease: Crease) -> Result<Edit, Fail> {
    let mut lines = Vec::new(alloc);
    lines.push(crease)?;
    Ok(Edit::Lines(Listed::new(lines)))
}

#[test]
fn creases_on_a_rectangle(rt: HostRuntime) -> Result<(), Fail> {
    let alloc = rt.alloc();
    // What is a side of the square is none of a sheet of width 2, whose side is at 2.
    let middle = draw(&rt, Colour::M, "1,0", "1,1");
    assert!(rt; gives(alloc, WIDE, &middle, "q2 2 2 1\nM 1,0 1,1\n")?);
    let side = draw(&rt, Colour::M, "2,1/4", "2,1");
    assert!(rt; is_refused(alloc, WIDE, &side, EditBad::OnBorder)?);
    let above = draw(&rt, Colour::M, "1,1", "0,2");
    assert!(rt; is_refused(alloc, WIDE, &above, EditBad::Outside)?);
    // The right half goes.
    let half = "q2 2 2 1\nM 0,1/2 1,1/2\n";
    assert!(rt; gives(alloc, ACROSS, &erase(&rt, "1,1/2", "2,1/2"), half)?);
    // The middle of it is recoloured.
    let parts = "q2 2 2 1\nM 0,1/2 1/2,1/2\nV 1/2,1/2 3/2,1/2\nM 3/2,1/2 2,1/2\n";
    let valley_within = recolour(&rt, Colour::V, "1/2,1/2", "3/2,1/2");
    assert!(rt; gives(alloc, ACROSS, &valley_within, parts)?);
    let steep = "q2 2 1 2\nM 0,0 1,1\nV 0,1 1,2\n";
    assert!(rt;
        gives(
            alloc,
            steep,
            &Edit::Flip,
            "q2 2 1 2\nV 0,0 1,1\nM 0,1 1,2\n"
        )?
    );
    let level = one(alloc, valley(&rt, "0,1", "1,1"))?;
    assert!(rt; gives(alloc, "q2 2 1 2\n", &level, "q2 2 1 2\nV 0,1 1,1\n")?);
    let top = one(alloc, valley(&rt, "0,2", "1,2"))?;
    assert!(rt; is_refused(alloc, "q2 2 1 2\n", &top, EditBad::OnBorder)?);
    Ok(())
}

#[test]
fn rays_on_a_rectangle(rt: HostRuntime) -> Result<(), Fail> {
    let alloc = rt.alloc();
    // To the side at 2; rising by 1 to (3/2, 1); from what would be a corner of the square.
    for (at, number, new) in [
        ("0,1/2", 0, "q2 2 2 1\nA 0,1/2 2,1/2\n"),
        ("1/2,0", 2, "q2 2 2 1\nA 1/2,0 3/2,1\n"),
        ("1,0", 4, "q2 2 2 1\nA 1,0 1,1\n"),
    ] {
        assert!(rt;
            gives(alloc, WIDE, &extend(&rt, Colour::A, at, number), new)?,
            "{at}"
        );
    }
    for (at, number) in [("2,1/2", 0), ("1,1", 4), ("1,1", 0)] {
        let edit = extend(&rt, Colour::A, at, number);
        assert!(rt; is_refused(alloc, WIDE, &edit, EditBad::AtBorder)?, "{at}");
    }
    // Between up and left from (2, 0), between left and down from (2, 1).
    let low = bisect(&rt, Colour::A, "2,0", 4, 8);
    assert!(rt; gives(alloc, WIDE, &low, "q2 2 2 1\nA 1,1 2,0\n")?);
    let high = bisect(&rt, Colour::A, "2,1", 8, 12);
    assert!(rt; gives(alloc, WIDE, &high, "q2 2 2 1\nA 1,0 2,1\n")?);
    // No side goes up from (1, 0), but one to its right and one to its left.
    let none = EditBad::NoRay { dir: dir(&rt, 4) };
    assert!(rt; is_refused(alloc, WIDE, &bisect(&rt, Colour::A, "1,0", 0, 4), none)?);
    let straight = bisect(&rt, Colour::A, "1,0", 0, 8);
    assert!(rt; gives(alloc, WIDE, &straight, "q2 2 2 1\nA 1,0 1,1\n")?);
    Ok(())
}

#[test]
fn images_and_ears_on_a_rectangle(rt: HostRuntime) -> Result<(), Fail> {
    let alloc = rt.alloc();
    let rising = "q2 2 2 1\nM 0,0 1/2,1/2\n";
    // At x = 3/4 the ends go to (3/2, 0) and (1, 1/2), at x = 5/4 the first to (5/2, 0).
    let roof = "q2 2 2 1\nM 0,0 1/2,1/2\nM 1,1/2 3/2,0\n";
    assert!(rt; gives(alloc, rising, &mirror(&rt, "3/4,0", 4), roof)?);
    assert!(rt; is_refused(alloc, rising, &mirror(&rt, "5/4,0", 4), EditBad::Outside)?);
    // x = 1/2 goes to x = 1 and to the side at x = 2.
    let upright = "q2 2 2 1\nA 1/2,0 1/2,1\n";
    let two = "q2 2 2 1\nA 1/2,0 1/2,1\nA 1,0 1,1\n";
    assert!(rt; gives(alloc, upright, &mirror(&rt, "3/4,0", 4), two)?);
    assert!(rt; is_refused(alloc, upright, &mirror(&rt, "5/4,0", 4), EditBad::OnBorder)?);
    // Legs of length 2: the incentre is as far from both as 2 is above √2.
    let ear = "q2 2 3 2\nM 0,0 2-1r,2-1r\nM 0,2 2-1r,2-1r\nV 2-1r,0 2-1r,2-1r\nM 2-1r,2-1r 2,0\n";
    let edit = rabbit_ear(&rt, Mark::M, "0,0", "2,0", "0,2");
    assert!(rt; gives(alloc, "q2 2 3 2\n", &edit, ear)?);
    let high = rabbit_ear(&rt, Mark::M, "0,0", "3,0", "0,3");
    assert!(rt; is_refused(alloc, "q2 2 3 2\n", &high, EditBad::Outside)?);
    Ok(())
}
