//! Vertices with their verdicts, worked by hand.
ghost use Rattle.std.specs.Prelude.{◌≡◌, ◌<◌};

use crate::{Verdict, Why, judge};
use crimp::Run;
use layers::Mark::{M, V};
use layers::{Mark, Ray, Star};
use ports::Steps;
use qroot2::Dir;
use std::marker::Brand;
use std::process::Abort;
use std::sync::ledger::{Blank, Ledger};

fn counted<L: Ledger>(blank: Blank, star: &Star) -> Verdict
    requires name { blank.name ≡ L.name }
    requires parts { blank.parts ≡ L.parts }
    requires some { 0 < blank.parts }
{
    let mut steps = Steps::<L>::begin(blank);
    judge(star, &mut steps)
}

fn ray(rt: &impl Abort, number: u8, mark: Mark) -> Ray {
    let dir = Dir::new(number).expect(rt, "a direction");
    Ray { dir, mark }
}

/// The verdict on the star of these rays.
fn verdict(rt: &impl Abort, rays: &[Ray]) -> Verdict {
    let star = Star::new(rays).expect(rt, "a star");
    counted::<Brand>(Blank::new(1), &star)
}

/// Whether the star of these rays passes with exactly this order.
fn passes(rt: &impl Abort, rays: &[Ray], expected: &[u8]) -> bool {
    match verdict(rt, rays) {
        Verdict::Passed(order) => order.numbers() == expected,
        _ => false,
    }
}

/// Why the star of these rays does not fold flat.
fn why(rt: &impl Abort, rays: &[Ray]) -> Option<Why> {
    match verdict(rt, rays) {
        Verdict::Fails(why) => Some(why),
        _ => None,
    }
}

#[test]
fn these_stars_pass(rt: HostRuntime) {
    // The four half diagonals of a sheet, one of them a valley.
    let diagonals = [
        ray(&rt, 2, M),
        ray(&rt, 6, M),
        ray(&rt, 10, M),
        ray(&rt, 14, V),
    ];
    assert!(rt; passes(&rt, &diagonals, &[1, 2, 3, 0]));
    // A rabbit ear.
    let ear = [
        ray(&rt, 5, M),
        ray(&rt, 10, M),
        ray(&rt, 12, V),
        ray(&rt, 15, M),
    ];
    assert!(rt; passes(&rt, &ear, &[3, 2, 1, 0]));
    // One straight crease.
    assert!(rt; passes(&rt, &[ray(&rt, 0, M), ray(&rt, 8, M)], &[1, 0]));
}

#[test]
fn wrong_angles_are_told(rt: HostRuntime) {
    let expected = Some(Why::Kawasaki {
        even: 16,
        odd: 0,
        count: 1,
    });
    assert_eq!(rt; why(&rt, &[ray(&rt, 0, M)]), expected);
    // With three rays the first sector and the last both have even numbers.
    let three = [ray(&rt, 0, M), ray(&rt, 8, M), ray(&rt, 12, M)];
    let expected = Some(Why::Kawasaki {
        even: 12,
        odd: 4,
        count: 3,
    });
    assert_eq!(rt; why(&rt, &three), expected);
}

#[test]
fn wrong_marks_are_told(rt: HostRuntime) {
    let mountains = [
        ray(&rt, 2, M),
        ray(&rt, 6, M),
        ray(&rt, 10, M),
        ray(&rt, 14, M),
    ];
    let expected = Some(Why::Maekawa {
        mountains: 4,
        valleys: 0,
    });
    assert_eq!(rt; why(&rt, &mountains), expected);
    // The rabbit ear with two marks exchanged: the least sector has equal marks.
    let ear = [
        ray(&rt, 5, V),
        ray(&rt, 10, M),
        ray(&rt, 12, M),
        ray(&rt, 15, M),
    ];
    let expected = Some(Why::Blocked(Run {
        from: ear[1].dir,
        to: ear[2].dir,
        angle: 2,
        count: 1,
    }));
    assert_eq!(rt; why(&rt, &ear), expected);
}

#[test]
fn a_star_without_rays_is_plain(rt: HostRuntime) {
    assert!(rt; matches!(verdict(&rt, &[]), Verdict::Plain));
}
