//! Small patterns kept cut and judged, worked by hand.
ghost use Rattle.std.specs.Prelude.{◌≡◌, ◌<◌};

use crate::{Fault, Judged, Report, Verdict, Why};
use crimp::Run;
use layers::{Mark, Ray};
use pattern::{between, read_pattern};
use plane::{Point, read_point};
use ports::Steps;
use qroot2::Dir;
use std::alloc::Global;
use std::marker::Brand;
use std::process::Abort;
use std::sync::ledger::{Blank, Ledger};
use std::test::Fail;

fn point(rt: &impl Abort, text: &str) -> Point {
    read_point(text.as_bytes()).ok().expect(rt, "a point")
}

fn judged(alloc: Global, text: &[u8]) -> Result<Judged, Fail> {
    Ok(Judged::start(alloc, read_pattern(alloc, text)?)?)
}

/// The pattern of another text, by a step from this one.
fn stepped(rt: &impl Abort, alloc: Global, from: Judged, text: &[u8]) -> Result<Judged, Fail> {
    counted::<Brand>(rt, alloc, from, text, Blank::new(1))
}

fn counted<L: Ledger>(
    rt: &impl Abort,
    alloc: Global,
    from: Judged,
    text: &[u8],
    blank: Blank,
) -> Result<Judged, Fail>
    requires name { blank.name ≡ L.name }
    requires parts { blank.parts ≡ L.parts }
    requires some { 0 < blank.parts }
{
    let mut steps = Steps::<L>::begin(blank);
    let new = read_pattern(alloc, text)?;
    assert!(rt; new.sheet() == from.pattern().sheet());
    let delta = between(alloc, from.pattern(), &new)?;
    let plan = from.check(alloc, &delta, &mut steps)?;
    Ok(from.apply(alloc, plan, &mut steps)?)
}

/// Whether a point is judged, with these rays and exactly this order.
fn passes(rt: &impl Abort, judged: &Judged, at: &str, rays: &[(u8, Mark)], order: &[u8]) -> bool {
    match judged.report(&point(rt, at)) {
        Some(Report::Judged { star, verdict }) => match verdict {
            Verdict::Passed(found) => are(star.rays(), rays) && found.numbers() == order,
            _ => false,
        },
        _ => false,
    }
}

fn are(rays: &[Ray], expected: &[(u8, Mark)]) -> bool {
    rays.len() == expected.len()
        && rays.iter().zip(expected.iter()).all(|(ray, other)| ray.dir.number() == other.0
            && ray.mark == other.1)
}

const CROSSED: &[u8] = b"q2 1\nM 0,0 1,1\nM 0,1 1,0\n";

const CROSSED_WITH_A_VALLEY: &[u8] = b"q2 1\nM 0,0 1,1\nM 0,1 1/2,1/2\nV 1/2,1/2 1,0\n";

#[test]
fn four_mountains_are_a_fault(rt: HostRuntime) -> Result<(), Fail> {
    let judged = judged(rt.alloc(), CROSSED)?;
    let expected = [Fault {
        at: point(&rt, "1/2,1/2"),
        why: Why::Maekawa {
            mountains: 4,
            valleys: 0,
        },
    }];
    assert_eq!(rt; judged.faults(), expected.as_slice());
    Ok(())
}

#[test]
fn a_mountain_becomes_a_valley(rt: HostRuntime) -> Result<(), Fail> {
    let old = judged(rt.alloc(), CROSSED)?;
    let new = stepped(&rt, rt.alloc(), old, CROSSED_WITH_A_VALLEY)?;
    let rays = [(2, Mark::M), (6, Mark::M), (10, Mark::M), (14, Mark::V)];
    assert!(rt; passes(&rt, &new, "1/2,1/2", &rays, &[1, 2, 3, 0]));
    assert!(rt; new.faults().is_empty());
    assert_eq!(rt; new.subdivision(rt.alloc())?.vertices().len(), 5);
    Ok(())
}

const EAR: &[u8] =
    b"q2 1\nM 0,0 2-1r/2,2-1r/2\nM 0,1 2-1r/2,2-1r/2\nV 2-1r/2,0 2-1r/2,2-1r/2\nM 2-1r/2,2-1r/2 1,0\n";

const BLOCKED_EAR: &[u8] =
    b"q2 1\nM 0,0 2-1r/2,2-1r/2\nV 0,1 2-1r/2,2-1r/2\nM 2-1r/2,0 2-1r/2,2-1r/2\nM 2-1r/2,2-1r/2 1,0\n";

#[test]
fn a_rabbit_ear_folds_and_one_is_blocked(rt: HostRuntime) -> Result<(), Fail> {
    let ear = judged(rt.alloc(), EAR)?;
    let rays = [(5, Mark::M), (10, Mark::M), (12, Mark::V), (15, Mark::M)];
    assert!(rt; passes(&rt, &ear, "2-1r/2,2-1r/2", &rays, &[3, 2, 1, 0]));
    assert!(rt; ear.faults().is_empty());
    let blocked = stepped(&rt, rt.alloc(), ear, BLOCKED_EAR)?;
    let expected = [Fault {
        at: point(&rt, "2-1r/2,2-1r/2"),
        why: Why::Blocked(Run {
            from: Dir::new(10).expect(&rt, "a direction"),
            to: Dir::new(12).expect(&rt, "a direction"),
            angle: 2,
            count: 1,
        }),
    }];
    assert_eq!(rt; blocked.faults(), expected.as_slice());
    Ok(())
}

#[test]
fn a_crease_that_ends_inside_is_a_fault(rt: HostRuntime) -> Result<(), Fail> {
    let ending = judged(rt.alloc(), b"q2 1\nM 0,1/2 1/2,1/2\n")?;
    let expected = [Fault {
        at: point(&rt, "1/2,1/2"),
        why: Why::Kawasaki {
            even: 16,
            odd: 0,
            count: 1,
        },
    }];
    assert_eq!(rt; ending.faults(), expected.as_slice());
    let text = b"q2 1\nM 0,1/2 1/2,1/2\nA 1/2,0 1/2,1\nM 1/2,1/2 1,1/2\n";
    let straight = stepped(&rt, rt.alloc(), ending, text)?;
    let rays = [(0, Mark::M), (8, Mark::M)];
    assert!(rt; passes(&rt, &straight, "1/2,1/2", &rays, &[1, 0]));
    assert!(rt; straight.faults().is_empty());
    Ok(())
}

#[test]
fn points_are_on_the_border_inside_or_nowhere(rt: HostRuntime) -> Result<(), Fail> {
    let judged = judged(rt.alloc(), b"q2 1\nA 0,1/2 1/2,1/2\n")?;
    assert!(rt; matches!(judged.report(&point(&rt, "0,0")), Some(Report::Border)));
    assert!(rt; judged.report(&point(&rt, "1/3,1/3")).is_none());
    match judged.report(&point(&rt, "1/2,1/2")) {
        Some(Report::Judged { star, verdict }) => {
            assert!(rt; star.rays().is_empty());
            assert!(rt; matches!(verdict, Verdict::Plain));
        }
        _ => panic!(rt; "not plain"),
    }
    Ok(())
}
