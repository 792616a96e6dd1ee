//! Marks worked by hand.
use crate::{Marks, common_multiple, is_small, row_of};
use plane::Point;
use qroot2::{Dir, Num};
use std::process::Abort;

/// The point ((a + b √2) / d, (e + f √2) / g).
fn point(rt: &impl Abort, [a, b, d]: [i64; 3], [e, f, g]: [i64; 3]) -> Point {
    assert!(rt; d > 0);
    assert!(rt; g > 0);
    Point {
        x: Num::new(i128::from(a), i128::from(b), i128::from(d)).expect(rt, "a number"),
        y: Num::new(i128::from(e), i128::from(f), i128::from(g)).expect(rt, "a number"),
    }
}

#[test]
fn marks_by_hand(rt: HostRuntime) {
    // x = 1/3, y = √2/4 = 0.35355.., √2 - 1 = 0.41421..
    let place = point(&rt, [1, 0, 3], [0, 1, 4]);
    let marks = Marks::of(1000, &place);
    // y, y - (√2 - 1) x, y - x, (√2 - 1) y - x
    assert!(rt; marks.at(0) == 353);
    assert!(rt; marks.at(1) == 215);
    assert!(rt; marks.at(2) == 20);
    assert!(rt; marks.at(3) == -187);
    // -x, (√2 - 1) y + x, y + x, y + (√2 - 1) x
    assert!(rt; marks.at(4) == -334);
    assert!(rt; marks.at(5) == 479);
    assert!(rt; marks.at(6) == 686);
    assert!(rt; marks.at(7) == 491);
    let far = point(&rt, [281474976710656, 0, 1], [-281474976710656, 0, 1]);
    assert!(rt; Marks::of(1, &far).at(0) == i32::MIN);
    assert!(rt; Marks::of(1, &far).at(6) == 0);
}

#[test]
fn marks_across_a_diagonal(rt: HostRuntime) {
    let diagonal = Dir::new(2).expect(&rt, "a direction");
    let low = Marks::of(1000, &point(&rt, [1, 0, 2], [1, 0, 4]));
    let high = Marks::of(1000, &point(&rt, [1, 0, 2], [3, 0, 4]));
    let row = row_of(diagonal);
    assert!(rt; row == 2);
    assert!(rt; low.at(row) == -250);
    assert!(rt; high.at(row) == 250);
}

#[test]
fn denominators_by_hand(rt: HostRuntime) {
    // x = 1/3, y = √2/4
    let place = point(&rt, [1, 0, 3], [0, 1, 4]);
    assert!(rt; common_multiple(1, &place) == Some(12));
    assert!(rt; common_multiple(8, &place) == Some(24));
    assert!(rt; common_multiple(131072, &place).is_none());
    assert!(rt; is_small(12, &place));
    assert!(rt; !is_small(4, &place));
    // 2^36 over 1 is small, and over 2 it is not.
    let far = point(&rt, [0, 0, 1], [0, 68719476736, 1]);
    assert!(rt; is_small(1, &far));
    assert!(rt; !is_small(2, &far));
}
