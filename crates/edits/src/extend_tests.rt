//! Extensions and bisectors in small patterns, worked by hand.

use crate::bisect::bisector;
use crate::extend::extension;
use crate::{EditBad, PointKind};
use pattern::{Pattern, read_pattern};
use plane::{Point, Seg, read_point};
use qroot2::Dir;
use std::alloc::Global;
use std::process::Abort;
use std::test::Fail;

fn point(rt: &impl Abort, text: &str) -> Point {
    read_point(text.as_bytes()).ok().expect(rt, "a point")
}

fn dir(rt: &impl Abort, number: u8) -> Dir {
    Dir::new(number).expect(rt, "a direction")
}

fn seg(rt: &impl Abort, from: &str, to: &str) -> Seg {
    Seg::new(point(rt, from), point(rt, to))
        .ok()
        .expect(rt, "a segment")
}

fn pattern(alloc: Global, text: &str) -> Result<Pattern, Fail> {
    Ok(read_pattern(alloc, text.as_bytes())?)
}

// Each row is a pattern, a point, a direction, and the other end.
#[test]
fn extended(rt: HostRuntime) -> Result<(), Fail> {
    for (text, at, number, end) in [
        ("q2 1\n", "0,0", 2, "1,1"),
        ("q2 1\n", "0,0", 1, "1,-1+1r"),
        ("q2 1\n", "1/2,0", 5, "3-2r/2,1"),
        ("q2 1\n", "1,1", 10, "0,0"),
        ("q2 1\n", "1/2,1/2", 12, "1/2,0"),
        ("q2 1\nM 0,1/2 1,1/2\n", "1/2,0", 4, "1/2,1/2"),
        ("q2 1\nM 0,1/2 1,1/2\n", "1/2,1", 12, "1/2,1/2"),
        ("q2 1\nM 0,1/2 1,1/2\n", "1/2,1/2", 12, "1/2,0"),
        // The crease lies along the ray ahead, or behind.
        ("q2 1\nM 1/2,1/2 1/2,1\n", "1/2,0", 4, "1/2,1/2"),
        ("q2 1\nM 1/2,1/4 1/2,1/2\n", "1/2,1", 12, "1/2,1/2"),
        ("q2 1\nM 1/2,1/2 1/2,1\n", "1/2,1/2", 12, "1/2,0"),
        // Of two creases the nearer one, in either order.
        (
            "q2 1\nM 0,1/4 1,1/4\nV 0,1/2 1,1/2\n",
            "1/2,0",
            4,
            "1/2,1/4",
        ),
        (
            "q2 1\nM 0,1/4 1,1/4\nV 0,1/2 1,1/2\n",
            "1/2,1",
            12,
            "1/2,1/2",
        ),
    ] {
        let pattern = pattern(rt.alloc(), text)?;
        let made = extension(&pattern, &point(&rt, at), dir(&rt, number));
        assert_eq!(rt; made, Ok(seg(&rt, at, end)), "from {at}");
    }
    Ok(())
}

#[test]
fn not_extended(rt: HostRuntime) -> Result<(), Fail> {
    for (text, at, number, why) in [
        ("q2 1\n", "2,0", 4, EditBad::Outside),
        ("q2 1\n", "0,0", 0, EditBad::AtBorder),
        ("q2 1\n", "0,0", 7, EditBad::AtBorder),
        ("q2 1\n", "1/2,0", 8, EditBad::AtBorder),
        ("q2 1\n", "1,1/2", 15, EditBad::AtBorder),
        ("q2 1\nM 1/2,0 1/2,1/2\n", "1/2,0", 4, EditBad::Covered),
        ("q2 1\nM 1/2,0 1/2,1/2\n", "1/2,1/4", 4, EditBad::Covered),
        ("q2 1\nM 1/2,0 1/2,1/2\n", "1/2,1/2", 12, EditBad::Covered),
        (
            "q2 1\n",
            "1/1048575,1/1048576",
            3,
            EditBad::Range {
                point: PointKind::End,
            },
        ),
    ] {
        let pattern = pattern(rt.alloc(), text)?;
        let made = extension(&pattern, &point(&rt, at), dir(&rt, number));
        assert_eq!(rt; made, Err(why), "from {at}");
    }
    Ok(())
}

#[test]
fn halved(rt: HostRuntime) -> Result<(), Fail> {
    let bare = pattern(rt.alloc(), "q2 1\n")?;
    let halved = pattern(rt.alloc(), "q2 1\nM 0,0 1,1\n")?;
    let origin = point(&rt, "0,0");
    assert_eq!(rt;
        bisector(&bare, &origin, dir(&rt, 0), dir(&rt, 4)),
        Ok(seg(&rt, "0,0", "1,1"))
    );
    assert_eq!(rt;
        bisector(&halved, &origin, dir(&rt, 0), dir(&rt, 2)),
        Ok(seg(&rt, "0,0", "1,-1+1r"))
    );
    assert_eq!(rt;
        bisector(&bare, &point(&rt, "1/2,0"), dir(&rt, 0), dir(&rt, 8)),
        Ok(seg(&rt, "1/2,0", "1/2,1"))
    );
    for (first, second, why) in [
        (4, 0, EditBad::AtBorder),
        (1, 4, EditBad::NoRay { dir: dir(&rt, 1) }),
        (4, 1, EditBad::NoRay { dir: dir(&rt, 1) }),
        (0, 4, EditBad::Covered),
    ] {
        assert_eq!(rt;
            bisector(&halved, &origin, dir(&rt, first), dir(&rt, second)),
            Err(why)
        );
    }
    let odd = pattern(rt.alloc(), "q2 1\nM 0,0 1,-1+1r\n")?;
    assert_eq!(rt;
        bisector(&odd, &origin, dir(&rt, 0), dir(&rt, 1)),
        Err(EditBad::OddAngle)
    );
    Ok(())
}
