//! Edits of small patterns, worked by hand.

use crate::{Edit, EditBad, PointKind, plan};
use pattern::{Crease, Pattern, pattern_bytes, read_pattern};
use plane::{Point, Seg, read_point};
use ports::{Listed, Stop};
use qroot2::Dir;
use sheet::{Colour, Mark};
use std::alloc::Global;
use std::fmt::Write;
use std::process::Abort;
use std::test::Fail;

pub(crate) fn point(rt: &impl Abort, text: &str) -> Point {
    read_point(text.as_bytes()).ok().expect(rt, "a point")
}

pub(crate) fn dir(rt: &impl Abort, number: u8) -> Dir {
    Dir::new(number).expect(rt, "a direction")
}

pub(crate) fn draw(rt: &impl Abort, colour: Colour, from: &str, to: &str) -> Edit {
    Edit::Draw {
        colour,
        from: point(rt, from),
        to: point(rt, to),
    }
}

pub(crate) fn erase(rt: &impl Abort, from: &str, to: &str) -> Edit {
    Edit::Erase {
        from: point(rt, from),
        to: point(rt, to),
    }
}

pub(crate) fn recolour(rt: &impl Abort, colour: Colour, from: &str, to: &str) -> Edit {
    Edit::Recolour {
        colour,
        from: point(rt, from),
        to: point(rt, to),
    }
}

pub(crate) fn extend(rt: &impl Abort, colour: Colour, at: &str, number: u8) -> Edit {
    Edit::Extend {
        colour,
        at: point(rt, at),
        dir: dir(rt, number),
    }
}

pub(crate) fn bisect(rt: &impl Abort, colour: Colour, at: &str, first: u8, second: u8) -> Edit {
    Edit::Bisect {
        colour,
        at: point(rt, at),
        first: dir(rt, first),
        second: dir(rt, second),
    }
}

pub(crate) fn mirror(rt: &impl Abort, at: &str, number: u8) -> Edit {
    Edit::Mirror {
        at: point(rt, at),
        dir: dir(rt, number),
    }
}

pub(crate) fn rabbit_ear(rt: &impl Abort, mark: Mark, p: &str, q: &str, r: &str) -> Edit {
    Edit::RabbitEar {
        mark,
        p: point(rt, p),
        q: point(rt, q),
        r: point(rt, r),
    }
}

/// Whether the edit makes the second pattern of the first, and the inverse of its delta leads back.
pub(crate) fn gives(alloc: Global, text: &str, edit: &Edit, new: &str) -> Result<bool, Fail> {
    let pattern = read_pattern(alloc, text.as_bytes())?;
    let delta = plan(alloc, &pattern, edit)?;
    let changed = pattern.applied(alloc, &delta)?;
    let back = delta.inverse();
    if !changed.fits(&back) {
        return Ok(false);
    }
    let again = changed.applied(alloc, &back)?;
    Ok(
        pattern_bytes(alloc, &changed)?.as_slice() == new.as_bytes()
            && pattern_bytes(alloc, &again)?.as_slice() == text.as_bytes(),
    )
}

/// Why the edit of the pattern is refused.
fn refusal(alloc: Global, pattern: &Pattern, edit: &Edit) -> Option<EditBad> {
    match plan(alloc, pattern, edit).err()? {
        Stop::Why(bad) => Some(bad),
        Stop::NoMemory => None,
    }
}

/// Whether the edit of the pattern is refused for this reason.
pub(crate) fn is_refused(
    alloc: Global,
    text: &str,
    edit: &Edit,
    why: EditBad,
) -> Result<bool, Fail> {
    let pattern = read_pattern(alloc, text.as_bytes())?;
    Ok(refusal(alloc, &pattern, edit) == Some(why))
}

const BLANK: &str = "q2 1\n";

const ACROSS: &str = "q2 1\nM 0,1/2 1,1/2\n";

const IN_THREE: &str = "q2 1\nM 0,1/2 1/4,1/2\nV 1/4,1/2 3/4,1/2\nM 3/4,1/2 1,1/2\n";

/// An ear in a corner of the sheet.
const EAR: &str =
    "q2 1\nM 0,0 2-1r/2,2-1r/2\nM 0,1 2-1r/2,2-1r/2\nV 2-1r/2,0 2-1r/2,2-1r/2\nM 2-1r/2,2-1r/2 1,0\n";

/// The same ear as a designer has it, with the long side of its triangle.
const MOLECULE: &str =
    "q2 1\nV 0,0 2-1r/2,2-1r/2\nV 0,1 2-1r/2,2-1r/2\nA 0,1 1,0\nM 2-1r/2,0 2-1r/2,2-1r/2\nV 2-1r/2,2-1r/2 1,0\n";

/// The same with its incentre joined to the long side.
const LONG: &str =
    "q2 1\nV 0,0 2-1r/2,2-1r/2\nV 0,1 2-1r/2,2-1r/2\nA 0,1 1,0\nM 2-1r/2,0 2-1r/2,2-1r/2\nV 2-1r/2,2-1r/2 1/2,1/2\nV 2-1r/2,2-1r/2 1,0\n";

const RISING: &str = "q2 1\nM 0,0 1,1\n";

const MET: &str = "q2 1\nM 0,0 1,1\nV 0,1/2 1/2,1/2\n";

/// A crease in direction 2 that misses the corner by a millionth.
const BY_A_HAIR: &str = "q2 1\nM 0,1/1048576 1048575/1048576,1\n";

#[test]
fn drawing(rt: HostRuntime) -> Result<(), Fail> {
    let alloc = rt.alloc();
    assert!(rt;
        gives(
            alloc,
            BLANK,
            &draw(&rt, Colour::M, "0,1/2", "1,1/2"),
            ACROSS
        )?
    );
    // Over a crease, with the ends given in the other order.
    assert!(rt;
        gives(
            alloc,
            ACROSS,
            &draw(&rt, Colour::V, "3/4,1/2", "1/4,1/2"),
            IN_THREE
        )?
    );
    // The delta of it has just the creases that change.
    let pattern = read_pattern(alloc, ACROSS.as_bytes())?;
    let delta = plan(alloc, &pattern, &draw(&rt, Colour::V, "1/4,1/2", "3/4,1/2"))?;
    assert!(rt; delta.removed.as_slice().len() == 1 && delta.added.as_slice().len() == 3);
    // What is there already changes nothing, the same colour on a part of a crease does.
    assert!(rt;
        is_refused(
            alloc,
            IN_THREE,
            &draw(&rt, Colour::V, "1/4,1/2", "3/4,1/2"),
            EditBad::NoChange
        )?
    );
    let same = "q2 1\nM 0,1/2 1/4,1/2\nM 1/4,1/2 3/4,1/2\nM 3/4,1/2 1,1/2\n";
    assert!(rt;
        gives(
            alloc,
            ACROSS,
            &draw(&rt, Colour::M, "1/4,1/2", "3/4,1/2"),
            same
        )?
    );
    // Over several creases, of which only the outer parts stay.
    let long = "q2 1\nM 0,1/2 1/8,1/2\nA 1/8,1/2 7/8,1/2\nM 7/8,1/2 1,1/2\n";
    assert!(rt;
        gives(
            alloc,
            IN_THREE,
            &draw(&rt, Colour::A, "1/8,1/2", "7/8,1/2"),
            long
        )?
    );
    Ok(())
}

#[test]
fn ends(rt: HostRuntime) -> Result<(), Fail> {
    let alloc = rt.alloc();
    for (from, to, why) in [
        ("0,0", "1,1/3", EditBad::NotDirection),
        ("0,0", "0,0", EditBad::SamePoint),
        ("0,0", "2,0", EditBad::Outside),
        ("2,0", "2,0", EditBad::Outside),
        ("0,0", "1,0", EditBad::OnBorder),
        ("1,3/4", "1,1/4", EditBad::OnBorder),
    ] {
        assert!(rt;
            is_refused(alloc, ACROSS, &draw(&rt, Colour::M, from, to), why)?,
            "{from}"
        );
        assert!(rt;
            is_refused(alloc, ACROSS, &erase(&rt, from, to), why)?,
            "{from}"
        );
        assert!(rt;
            is_refused(alloc, ACROSS, &recolour(&rt, Colour::A, from, to), why)?,
            "{from}"
        );
    }
    Ok(())
}

#[test]
fn erasing(rt: HostRuntime) -> Result<(), Fail> {
    let alloc = rt.alloc();
    let gap = "q2 1\nM 0,1/2 1/4,1/2\nM 1/2,1/2 1,1/2\n";
    assert!(rt; gives(alloc, ACROSS, &erase(&rt, "1/4,1/2", "1/2,1/2"), gap)?);
    assert!(rt;
        is_refused(
            alloc,
            gap,
            &erase(&rt, "1/4,1/2", "1/2,1/2"),
            EditBad::NoCrease
        )?
    );
    assert!(rt; gives(alloc, gap, &erase(&rt, "0,1/2", "1,1/2"), BLANK)?);
    // Half of the long side of the ear's triangle.
    let half =
        "q2 1\nV 0,0 2-1r/2,2-1r/2\nV 0,1 2-1r/2,2-1r/2\nM 2-1r/2,0 2-1r/2,2-1r/2\nV 2-1r/2,2-1r/2 1,0\nA 1/2,1/2 1,0\n";
    assert!(rt; gives(alloc, MOLECULE, &erase(&rt, "0,1", "1/2,1/2"), half)?);
    Ok(())
}

#[test]
fn recolouring(rt: HostRuntime) -> Result<(), Fail> {
    let alloc = rt.alloc();
    let crossed = "q2 1\nM 0,0 1,1\nM 0,1 1,0\n";
    let valley = "q2 1\nM 0,0 1,1\nM 0,1 1/2,1/2\nV 1/2,1/2 1,0\n";
    assert!(rt;
        gives(
            alloc,
            crossed,
            &recolour(&rt, Colour::V, "1/2,1/2", "1,0"),
            valley
        )?
    );
    // The crease that has the colour stays whole, the two beside it are cut.
    let wider =
        "q2 1\nM 0,1/2 1/8,1/2\nV 1/8,1/2 1/4,1/2\nV 1/4,1/2 3/4,1/2\nV 3/4,1/2 7/8,1/2\nM 7/8,1/2 1,1/2\n";
    assert!(rt;
        gives(
            alloc,
            IN_THREE,
            &recolour(&rt, Colour::V, "1/8,1/2", "7/8,1/2"),
            wider
        )?
    );
    assert!(rt;
        is_refused(
            alloc,
            IN_THREE,
            &recolour(&rt, Colour::V, "3/8,1/2", "5/8,1/2"),
            EditBad::NoChange
        )?
    );
    assert!(rt;
        is_refused(
            alloc,
            ACROSS,
            &recolour(&rt, Colour::V, "0,1/4", "1,1/4"),
            EditBad::NoCrease
        )?
    );
    Ok(())
}

#[test]
fn flipping(rt: HostRuntime) -> Result<(), Fail> {
    let alloc = rt.alloc();
    let flipped =
        "q2 1\nM 0,0 2-1r/2,2-1r/2\nM 0,1 2-1r/2,2-1r/2\nA 0,1 1,0\nV 2-1r/2,0 2-1r/2,2-1r/2\nM 2-1r/2,2-1r/2 1,0\n";
    assert!(rt; gives(alloc, MOLECULE, &Edit::Flip, flipped)?);
    assert!(rt; is_refused(alloc, BLANK, &Edit::Flip, EditBad::NoChange)?);
    assert!(rt; is_refused(alloc, "q2 1\nA 0,0 1,1\n", &Edit::Flip, EditBad::NoChange)?);
    Ok(())
}

#[test]
fn extending(rt: HostRuntime) -> Result<(), Fail> {
    let alloc = rt.alloc();
    for (text, at, number, new) in [
        (RISING, "0,1/2", 0, MET),
        // Through the corner to which it runs, and on from the end of a crease behind.
        (BLANK, "0,0", 2, "q2 1\nV 0,0 1,1\n"),
        (
            "q2 1\nM 0,1/2 1/4,1/2\n",
            "1/4,1/2",
            0,
            "q2 1\nM 0,1/2 1/4,1/2\nV 1/4,1/2 1,1/2\n",
        ),
        // To a crease that only touches the ray, and to the nearer end of one that lies on it.
        (
            "q2 1\nM 1/2,1/2 1/2,1\n",
            "0,1/2",
            0,
            "q2 1\nV 0,1/2 1/2,1/2\nM 1/2,1/2 1/2,1\n",
        ),
        (
            "q2 1\nM 1/4,1/2 1/2,1/2\n",
            "3/4,1/2",
            8,
            "q2 1\nM 1/4,1/2 1/2,1/2\nV 1/2,1/2 3/4,1/2\n",
        ),
        // From the incentre of an ear to the long side of its triangle.
        (MOLECULE, "2-1r/2,2-1r/2", 2, LONG),
    ] {
        assert!(rt;
            gives(alloc, text, &extend(&rt, Colour::V, at, number), new)?,
            "{at}"
        );
    }
    Ok(())
}

#[test]
fn not_extending(rt: HostRuntime) -> Result<(), Fail> {
    let alloc = rt.alloc();
    for (at, number, why) in [
        ("0,1/2", 0, EditBad::Covered),
        ("0,1/2", 8, EditBad::AtBorder),
        ("0,1/2", 4, EditBad::AtBorder),
        ("0,3/2", 0, EditBad::Outside),
    ] {
        let edit = extend(&rt, Colour::V, at, number);
        assert!(rt; is_refused(alloc, MET, &edit, why)?, "{at}");
    }
    Ok(())
}

#[test]
fn crossings_that_cannot_be_held(rt: HostRuntime) -> Result<(), Fail> {
    let alloc = rt.alloc();
    let end = EditBad::Range {
        point: PointKind::End,
    };
    assert!(rt; is_refused(alloc, BY_A_HAIR, &extend(&rt, Colour::V, "0,1", 14), end)?);
    // It refuses behind the first crease that the ray meets too, but not behind the start.
    let hidden = "q2 1\nM 0,1/1048576 1048575/1048576,1\nA 1/4,1/2 1/4,1\n";
    assert!(rt; is_refused(alloc, hidden, &extend(&rt, Colour::V, "0,1", 14), end)?);
    let behind = "q2 1\nM 0,1/1048576 1048575/1048576,1\nV 0,1 1/4,3/4\nA 1/4,1/2 1/4,1\n";
    assert!(rt; gives(alloc, hidden, &extend(&rt, Colour::V, "1/4,3/4", 6), behind)?);
    Ok(())
}

#[test]
fn bisecting(rt: HostRuntime) -> Result<(), Fail> {
    let alloc = rt.alloc();
    let once = "q2 1\nV 0,0 1,1\n";
    let twice = "q2 1\nM 0,0 1,-1+1r\nV 0,0 1,1\n";
    assert!(rt; gives(alloc, BLANK, &bisect(&rt, Colour::V, "0,0", 0, 4), once)?);
    assert!(rt; gives(alloc, once, &bisect(&rt, Colour::M, "0,0", 0, 2), twice)?);
    assert!(rt;
        is_refused(
            alloc,
            twice,
            &bisect(&rt, Colour::M, "0,0", 0, 1),
            EditBad::OddAngle
        )?
    );
    let missing = EditBad::NoRay { dir: dir(&rt, 3) };
    assert!(rt; is_refused(alloc, twice, &bisect(&rt, Colour::M, "0,0", 0, 3), missing)?);
    assert!(rt; is_refused(alloc, twice, &bisect(&rt, Colour::M, "0,0", 3, 5), missing)?);
    // The other way round is the angle outside the sheet, and a full turn leads back along the ray.
    assert!(rt;
        is_refused(
            alloc,
            once,
            &bisect(&rt, Colour::M, "0,0", 4, 0),
            EditBad::AtBorder
        )?
    );
    let half = "q2 1\nM 0,1/2 1/2,1/2\n";
    assert!(rt;
        gives(
            alloc,
            half,
            &bisect(&rt, Colour::M, "1/2,1/2", 8, 8),
            "q2 1\nM 0,1/2 1/2,1/2\nM 1/2,1/2 1,1/2\n"
        )?
    );
    // Between a side and the bisector of the corner, to the foot of the ear.
    let foot =
        "q2 1\nA 0,0 2-1r/2,-4+3r/2\nV 0,0 2-1r/2,2-1r/2\nV 0,1 2-1r/2,2-1r/2\nA 0,1 1,0\nM 2-1r/2,0 2-1r/2,2-1r/2\nV 2-1r/2,2-1r/2 1,0\n";
    assert!(rt; gives(alloc, MOLECULE, &bisect(&rt, Colour::A, "0,0", 0, 2), foot)?);
    Ok(())
}

#[test]
fn mirroring(rt: HostRuntime) -> Result<(), Fail> {
    let alloc = rt.alloc();
    let half = "q2 1\nM 0,0 1/2,1/2\n";
    let roof = "q2 1\nM 0,0 1/2,1/2\nM 1/2,1/2 1,0\n";
    assert!(rt; gives(alloc, half, &mirror(&rt, "1/2,0", 4), roof)?);
    assert!(rt; is_refused(alloc, roof, &mirror(&rt, "1/2,0", 4), EditBad::NoChange)?);
    // On the line, across it, and on its right are none that are mirrored.
    assert!(rt; is_refused(alloc, half, &mirror(&rt, "0,0", 2), EditBad::NoCrease)?);
    assert!(rt; is_refused(alloc, half, &mirror(&rt, "1/4,0", 4), EditBad::NoCrease)?);
    assert!(rt; is_refused(alloc, half, &mirror(&rt, "1/2,0", 12), EditBad::NoCrease)?);
    let near = "q2 1\nA 1/1048576,0 1/1048576,1\n";
    let image = EditBad::Range {
        point: PointKind::Image,
    };
    assert!(rt; is_refused(alloc, near, &mirror(&rt, "1/3,0", 4), image)?);
    assert!(rt; is_refused(alloc, half, &mirror(&rt, "3/4,0", 4), EditBad::Outside)?);
    assert!(rt; is_refused(alloc, half, &mirror(&rt, "2,0", 4), EditBad::Outside)?);
    assert!(rt; is_refused(alloc, half, &mirror(&rt, "0,0", 1), EditBad::OnBorder)?);
    Ok(())
}

#[test]
fn rabbit_ears(rt: HostRuntime) -> Result<(), Fail> {
    let alloc = rt.alloc();
    let ear = rabbit_ear(&rt, Mark::M, "0,0", "1,0", "0,1");
    assert!(rt; gives(alloc, BLANK, &ear, EAR)?);
    assert!(rt; is_refused(alloc, EAR, &ear, EditBad::NoChange)?);
    // Clockwise, with the right angle at the second corner.
    let turned =
        "q2 1\nV 0,0 2-1r/2,1r/2\nM 0,1r/2 2-1r/2,1r/2\nV 0,1 2-1r/2,1r/2\nV 2-1r/2,1r/2 1,1\n";
    let ear = rabbit_ear(&rt, Mark::V, "0,0", "0,1", "1,1");
    assert!(rt; gives(alloc, BLANK, &ear, turned)?);
    Ok(())
}

#[test]
fn no_rabbit_ears(rt: HostRuntime) -> Result<(), Fail> {
    let alloc = rt.alloc();
    let centre = EditBad::Range {
        point: PointKind::Incentre,
    };
    let foot = EditBad::Range {
        point: PointKind::Foot,
    };
    for (p, q, r, why) in [
        ("0,0", "1,0", "1,-1+1r", EditBad::NoMolecule),
        ("0,0", "1,0", "1/2,0", EditBad::NoMolecule),
        ("0,0", "1,0", "1/3,1/2", EditBad::NotDirection),
        ("0,0", "1,0", "0,0", EditBad::SamePoint),
        ("0,0", "1,0", "0,2", EditBad::Outside),
        ("0,0", "1/1048576,0", "0,1/1048576", centre),
        // The incentre of this triangle can be held, its foot on a leg has twice the denominator.
        ("1/1048575,0", "2/1048575,1/1048575", "0,1/1048575", foot),
    ] {
        let edit = rabbit_ear(&rt, Mark::M, p, q, r);
        assert!(rt; is_refused(alloc, BLANK, &edit, why)?, "{r}");
    }
    Ok(())
}

#[test]
fn half_a_bird_base(rt: HostRuntime) -> Result<(), Fail> {
    let alloc = rt.alloc();
    let diagonals = "q2 1\nA 0,0 1,1\nM 0,1 1,0\n";
    let ear =
        "q2 1\nV 0,0 1/2,-1+1r/2\nA 0,0 1,1\nM 0,1 1,0\nM 1/2,0 1/2,-1+1r/2\nV 1/2,-1+1r/2 1/2,1/2\nV 1/2,-1+1r/2 1,0\n";
    assert!(rt;
        gives(
            alloc,
            diagonals,
            &rabbit_ear(&rt, Mark::V, "0,0", "1,0", "1/2,1/2"),
            ear
        )?
    );
    // To the side over it: what is below the middle line is on the left as one goes left.
    let two =
        "q2 1\nV 0,0 1/2,-1+1r/2\nA 0,0 1,1\nV 0,1 1/2,3-1r/2\nM 0,1 1,0\nM 1/2,0 1/2,-1+1r/2\nV 1/2,-1+1r/2 1/2,1/2\nV 1/2,-1+1r/2 1,0\nV 1/2,1/2 1/2,3-1r/2\nM 1/2,3-1r/2 1/2,1\nV 1/2,3-1r/2 1,1\n";
    assert!(rt; gives(alloc, ear, &mirror(&rt, "0,1/2", 8), two)?);
    // To the side beside it, in the diagonal.
    let beside =
        "q2 1\nV 0,0 -1+1r/2,1/2\nV 0,0 1/2,-1+1r/2\nA 0,0 1,1\nM 0,1/2 -1+1r/2,1/2\nV 0,1 -1+1r/2,1/2\nM 0,1 1,0\nV -1+1r/2,1/2 1/2,1/2\nM 1/2,0 1/2,-1+1r/2\nV 1/2,-1+1r/2 1/2,1/2\nV 1/2,-1+1r/2 1,0\n";
    assert!(rt; gives(alloc, ear, &mirror(&rt, "1/2,1/2", 10), beside)?);
    Ok(())
}

/// Level creases in the colour A, numbered from 1 up to this number.
fn levels(rt: &impl Abort, alloc: Global, end: u32) -> Result<Vec<Crease>, Fail> {
    let mut creases = Vec::new(alloc);
    // 20011 is a prime, so that the numbers are in lowest terms.
    for n in 1..end {
        let mut from = String::new(alloc);
        write!(from, "0,{n}/20011")?;
        let mut to = String::new(alloc);
        write!(to, "1,{n}/20011")?;
        let seg = Seg::new(point(rt, from.as_str()), point(rt, to.as_str()));
        creases.push(Crease {
            seg: seg.ok().expect(rt, "a segment"),
            colour: Colour::A,
        })?;
    }
    Ok(creases)
}

#[test]
fn many_lines(rt: HostRuntime) -> Result<(), Fail> {
    let alloc = rt.alloc();
    let none = Edit::Lines(Listed::new(Vec::new(alloc)));
    assert!(rt; is_refused(alloc, BLANK, &none, EditBad::NoChange)?);
    assert!(rt; is_refused(alloc, ACROSS, &none, EditBad::NoChange)?);
    let all = Edit::Lines(Listed::new(levels(&rt, alloc, 20_002)?));
    let many = EditBad::TooManyCreases { count: 20_001 };
    assert!(rt; is_refused(alloc, BLANK, &all, many)?);
    // One less can stand. A part of one of them cuts it in three, and what would close it again
    // comes too late.
    let pattern = read_pattern(alloc, BLANK.as_bytes())?;
    let most = Edit::Lines(Listed::new(levels(&rt, alloc, 20_001)?));
    let full = pattern.applied(alloc, &plan(alloc, &pattern, &most)?)?;
    assert!(rt; full.len() == 20_000);
    let mut again = Vec::new(alloc);
    again.push(valley(&rt, "1/4,1/20011", "3/4,1/20011"))?;
    again.extend_from_slice(&levels(&rt, alloc, 2)?)?;
    let cut = EditBad::TooManyCreases { count: 20_002 };
    assert!(rt; refusal(alloc, &full, &Edit::Lines(Listed::new(again))) == Some(cut));
    Ok(())
}

/// The valley between two points.
pub(crate) fn valley(rt: &impl Abort, from: &str, to: &str) -> Crease {
    let seg = Seg::new(point(rt, from), point(rt, to));
    Crease {
        seg: seg.ok().expect(rt, "a segment"),
        colour: Colour::V,
    }
}

/// The edit that draws a mountain across and then these two creases.
fn lines(rt: &impl Abort, alloc: Global, last: [Crease; 2]) -> Result<Edit, Fail> {
    let mut list = Vec::new(alloc);
    list.push(Crease {
        colour: Colour::M,
        ..valley(rt, "0,1/2", "1,1/2")
    })?;
    for crease in last {
        list.push(crease)?;
    }
    Ok(Edit::Lines(Listed::new(list)))
}

#[test]
fn lines_in_turn(rt: HostRuntime) -> Result<(), Fail> {
    let alloc = rt.alloc();
    let part = valley(&rt, "1/4,1/2", "1/2,1/2");
    let middle = valley(&rt, "1/4,1/2", "3/4,1/2");
    let side = valley(&rt, "0,0", "1/2,0");
    let outside = valley(&rt, "1/2,0", "3/2,0");
    // The later crease takes the place of the part before it.
    assert!(rt; gives(alloc, BLANK, &lines(&rt, alloc, [part, middle])?, IN_THREE)?);
    // The first crease that cannot stand is named, and what comes before it draws nothing.
    let first = lines(&rt, alloc, [side, outside])?;
    assert!(rt; is_refused(alloc, BLANK, &first, EditBad::OnBorder)?);
    let first = lines(&rt, alloc, [outside, side])?;
    assert!(rt; is_refused(alloc, BLANK, &first, EditBad::Outside)?);
    Ok(())
}
