//! Stars that fold flat and stars that do not, worked by hand.
use crate::{Outcome, reduce};
use arrayvec::ArrayVec;
use layers::Mark::{M, V};
use layers::{Mark, Ray, Sectors, Star, is_order, sectors};
use qroot2::Dir;
use std::process::Abort;

/// The sectors of a star of rays with these direction numbers and marks.
fn sectors_of(rt: &impl Abort, rays: &[(u8, Mark)]) -> Sectors {
    let mut list: ArrayVec<Ray, 16> = ArrayVec::new();
    for (number, mark) in rays {
        assert!(rt; list.len() < 16);
        let dir = Dir::new(*number).expect(rt, "a direction");
        list.push(Ray { dir, mark: *mark });
    }
    sectors(&Star::new(list.as_slice()).expect(rt, "a star"))
}

/// Whether the star folds flat with exactly this order.
fn folds(rt: &impl Abort, rays: &[(u8, Mark)], expected: &[u8]) -> bool {
    let sectors = sectors_of(rt, rays);
    assert!(rt; sectors.closes_up());
    match reduce(&sectors) {
        Outcome::Folds(order) => order.numbers() == expected,
        Outcome::Stuck(_) => false,
    }
}

/// Whether the star folds flat with some order that is a layer order.
fn folds_somehow(rt: &impl Abort, rays: &[(u8, Mark)]) -> bool {
    let sectors = sectors_of(rt, rays);
    assert!(rt; sectors.closes_up());
    match reduce(&sectors) {
        Outcome::Folds(order) => is_order(&sectors, &order),
        Outcome::Stuck(_) => false,
    }
}

/// Whether the star is stuck with exactly this run: from, to, angle and count.
fn sticks(rt: &impl Abort, rays: &[(u8, Mark)], expected: [u8; 4]) -> bool {
    let sectors = sectors_of(rt, rays);
    assert!(rt; sectors.closes_up());
    match reduce(&sectors) {
        Outcome::Folds(_) => false,
        Outcome::Stuck(run) => {
            [run.from.number(), run.to.number(), run.angle, run.count] == expected
        }
    }
}

#[test]
fn these_stars_fold_flat(rt: HostRuntime) {
    // The four half diagonals of a sheet, one of them a valley: there is one order.
    assert!(rt; folds(&rt, &[(2, M), (6, M), (10, M), (14, V)], &[1, 2, 3, 0]));
    // A rabbit ear.
    assert!(rt; folds(&rt, &[(5, M), (10, M), (12, V), (15, M)], &[3, 2, 1, 0]));
    // One straight crease.
    assert!(rt; folds(&rt, &[(0, M), (8, M)], &[1, 0]));
    assert!(rt; folds(&rt, &[(0, V), (8, V)], &[0, 1]));
    // Two least sectors, of which the first has equal marks.
    assert!(rt; folds_somehow(&rt, &[(0, M), (2, M), (4, V), (10, M)]));
}

#[test]
fn these_stars_are_stuck_in_a_run(rt: HostRuntime) {
    // The rabbit ear with two marks exchanged: mountains and valleys differ by two, and the least
    // sector has equal marks.
    assert!(rt; sticks(&rt, &[(5, V), (10, M), (12, M), (15, M)], [10, 12, 2, 1]));
    // A straight crease whose halves have opposite marks: both sectors are least, and the run goes
    // all the way round.
    assert!(rt; sticks(&rt, &[(3, M), (11, V)], [3, 3, 8, 2]));
    // Two least sectors in a row, over the least direction.
    assert!(rt; sticks(&rt, &[(0, M), (2, M), (8, V), (14, M)], [14, 2, 2, 2]));
}

// Sixteen rays with all angles one unit.
#[test]
fn sixteen_least_sectors_fold_or_are_stuck(rt: HostRuntime) {
    let marks = [M, V, M, V, M, V, M, V, M, V, M, V, M, M, V, M];
    let mut rays = [(0, M); 16];
    for (i, mark) in marks.iter().enumerate() {
        rays[i] = (i as u8, *mark);
    }
    assert!(rt; folds_somehow(&rt, &rays));
    for i in 0..16 {
        rays[i] = (i as u8, V);
    }
    assert!(rt; sticks(&rt, &rays, [0, 0, 1, 16]));
}
