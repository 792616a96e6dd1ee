//! Worked values: directions, meetings and places on the sheet, worked by hand.
ghost use Rattle.std.specs.Prelude.{◌≡◌, ◌<◌};

use crate::{
    Meet, Point, Seg, SegBad, Sheet, SupportLine, corner, cross_lines, in_sheet, meet, on,
    on_border, seg_on_border, sheet_sides, side,
};
use ports::Steps;
use qroot2::{Dir, Num, Sign};
use std::marker::Brand;
use std::process::Abort;
use std::sync::ledger::{Blank, Ledger};

/// The number (a + b √2) / d.
fn num(rt: &impl Abort, [a, b, d]: [i64; 3]) -> Num {
    assert!(rt; d > 0);
    Num::new(i128::from(a), i128::from(b), i128::from(d)).expect(rt, "a number")
}

fn point(rt: &impl Abort, x: [i64; 3], y: [i64; 3]) -> Point {
    Point {
        x: num(rt, x),
        y: num(rt, y),
    }
}

fn seg(rt: &impl Abort, p: Point, q: Point) -> Seg {
    Seg::new(p, q).ok().expect(rt, "a segment")
}

fn counted<L: Ledger>(blank: Blank, s: &Seg, t: &Seg) -> Meet
    requires name { blank.name ≡ L.name }
    requires parts { blank.parts ≡ L.parts }
    requires some { 0 < blank.parts }
{
    let mut steps = Steps::<L>::begin(blank);
    meet(s, t, &mut steps)
}

fn met(s: &Seg, t: &Seg) -> Meet {
    counted::<Brand>(Blank::new(1), s, t)
}

const ZERO: [i64; 3] = [0, 0, 1];

const ONE: [i64; 3] = [1, 0, 1];

const TWO: [i64; 3] = [2, 0, 1];

const HALF: [i64; 3] = [1, 0, 2];

// √2 - 1, the tangent of 22.5 degrees
const TANGENT: [i64; 3] = [-1, 1, 1];

// 2^20, the largest denominator
const LARGE: i64 = 1048576;

#[test]
fn segments_have_their_directions(rt: HostRuntime) {
    let center = point(&rt, HALF, HALF);
    for (x, y, number) in [
        (ONE, HALF, 0),
        (ONE, [0, 1, 2], 1),
        (ONE, ONE, 2),
        ([0, 1, 2], ONE, 3),
        (HALF, ONE, 4),
        ([0, 1, 2], ZERO, 13),
        (ONE, ZERO, 14),
        (ONE, [2, -1, 2], 15),
    ] {
        let end = point(&rt, x, y);
        let there = seg(&rt, center, end);
        assert_eq!(rt; there.dir().number(), number);
        assert_eq!(rt; there.p(), center);
        assert_eq!(rt; there.q(), end);
        assert!(rt; seg(&rt, end, center) == there);
    }
}

#[test]
fn other_pairs_are_no_segments(rt: HostRuntime) {
    let origin = point(&rt, ZERO, ZERO);
    let off = point(&rt, ONE, HALF);
    let hair = point(&rt, ONE, [LARGE - 1, 0, LARGE]);
    assert!(rt; Seg::new(off, off) == Err(SegBad::SamePoint));
    assert!(rt; Seg::new(origin, off) == Err(SegBad::NotDirection));
    assert!(rt; Seg::new(off, origin) == Err(SegBad::NotDirection));
    assert!(rt; Seg::new(origin, hair) == Err(SegBad::NotDirection));
}

#[test]
fn segments_of_one_line_have_one_support(rt: HostRuntime) {
    let origin = point(&rt, ZERO, ZERO);
    let center = point(&rt, HALF, HALF);
    let corner = point(&rt, ONE, ONE);
    let (rising, line) = Seg::with_line(center, origin).ok().expect(&rt, "a segment");
    assert!(rt; rising == seg(&rt, origin, center));
    assert!(rt; line == SupportLine::of(&rising));
    assert!(rt; line == SupportLine::of(&seg(&rt, center, corner)));
    // beside it, and across it
    assert!(rt; line != SupportLine::of(&seg(&rt, point(&rt, ZERO, HALF), point(&rt, HALF, ONE))));
    assert!(rt; line != SupportLine::of(&seg(&rt, center, point(&rt, ONE, ZERO))));
    assert!(rt; Seg::with_line(center, center) == Err(SegBad::SamePoint));
    assert!(rt; Seg::with_line(origin, point(&rt, ONE, HALF)) == Err(SegBad::NotDirection));
}

#[test]
fn two_segments_meet_in_one_of_four_ways(rt: HostRuntime) {
    let origin = point(&rt, ZERO, ZERO);
    let right = point(&rt, ONE, ZERO);
    let top = point(&rt, ZERO, ONE);
    let corner = point(&rt, ONE, ONE);
    let center = point(&rt, HALF, HALF);
    let quarter = point(&rt, [1, 0, 4], [1, 0, 4]);
    let rising = seg(&rt, origin, corner);
    let falling = seg(&rt, top, right);
    let half = seg(&rt, origin, center);
    assert!(rt; met(&rising, &falling) == Meet::At(center));
    // An end within, ends that touch, and one line.
    assert!(rt; met(&half, &falling) == Meet::At(center));
    assert!(rt; met(&half, &seg(&rt, center, corner)) == Meet::At(center));
    assert!(rt; met(&half, &seg(&rt, center, right)) == Meet::At(center));
    assert!(rt; met(&half, &seg(&rt, quarter, corner)) == Meet::Overlap(seg(&rt, quarter, center)));
    assert!(rt; met(&seg(&rt, origin, quarter), &seg(&rt, center, corner)) == Meet::Apart);
    // The plain directions.
    let low = seg(&rt, origin, right);
    let left = seg(&rt, origin, top);
    assert!(rt; met(&low, &left) == Meet::At(origin));
    assert!(rt; met(&left, &low) == Meet::At(origin));
    assert!(rt; met(&low, &seg(&rt, top, corner)) == Meet::Apart);
    assert!(rt; met(&low, &seg(&rt, center, point(&rt, HALF, ONE))) == Meet::Apart);
}

#[test]
fn segments_meet_in_the_field_of_the_root(rt: HostRuntime) {
    let origin = point(&rt, ZERO, ZERO);
    let flat = seg(&rt, origin, point(&rt, ONE, TANGENT));
    let steep = seg(&rt, origin, point(&rt, TANGENT, ONE));
    let falling = seg(&rt, point(&rt, ZERO, ONE), point(&rt, ONE, ZERO));
    let back = seg(&rt, point(&rt, ZERO, TANGENT), point(&rt, ONE, ZERO));
    // x (1 + √2 - 1) = 1, so x = √2 / 2
    assert!(rt; met(&flat, &falling) == Meet::At(point(&rt, [0, 1, 2], [2, -1, 2])));
    assert!(rt; met(&falling, &flat) == Meet::At(point(&rt, [0, 1, 2], [2, -1, 2])));
    assert!(rt; met(&flat, &back) == Meet::At(point(&rt, HALF, [-1, 1, 2])));
    // (√2 + 1) x = (√2 - 1) (1 - x), so x = (2 - √2) / 4
    assert!(rt; met(&steep, &back) == Meet::At(point(&rt, [2, -1, 4], [0, 1, 4])));
    let middle = point(&rt, HALF, [-1, 1, 2]);
    let twice = point(&rt, [2, 0, 1], [-2, 2, 1]);
    assert!(rt;
        met(&flat, &seg(&rt, middle, twice))
            == Meet::Overlap(seg(&rt, middle, point(&rt, ONE, TANGENT)))
    );
}

#[test]
fn segments_meet_or_miss_by_a_hair(rt: HostRuntime) {
    let falling = seg(&rt, point(&rt, ZERO, ONE), point(&rt, ONE, ZERO));
    let hair = [1, 0, LARGE];
    let next = [LARGE - 1, 0, LARGE];
    // They meet at (2^20 - 1) / 2^21.
    let close = seg(&rt, point(&rt, ZERO, hair), point(&rt, next, ONE));
    assert!(rt; met(&close, &falling) == Meet::AtOutOfRange);
    // The upper end is just on the line, or just below it.
    let half_next = [LARGE / 2 - 1, 0, LARGE];
    let touching = seg(&rt, point(&rt, HALF, ZERO), point(&rt, HALF, HALF));
    let below = seg(&rt, point(&rt, HALF, ZERO), point(&rt, HALF, half_next));
    assert!(rt; met(&touching, &falling) == Meet::At(point(&rt, HALF, HALF)));
    assert!(rt; met(&below, &falling) == Meet::Apart);
}

#[test]
fn points_are_on_one_side_of_a_line(rt: HostRuntime) {
    let origin = point(&rt, ZERO, ZERO);
    let edge = point(&rt, ONE, TANGENT);
    for number in 0..16u8 {
        let dir = Dir::new(number).expect(&rt, "a direction");
        let want = match number {
            1 | 9 => Sign::Zero,
            2..=8 => Sign::Minus,
            _ => Sign::Plus,
        };
        assert_eq!(rt; side(&origin, dir, &edge), want, "at {number}");
    }
    let flat = seg(&rt, origin, edge);
    assert!(rt; on(&flat, &origin) && on(&flat, &edge) && on(&flat, &point(&rt, HALF, [-1, 1, 2])));
    assert!(rt;
        !on(&flat, &point(&rt, [2, 0, 1], [-2, 2, 1])) && !on(&flat, &point(&rt, HALF, HALF))
    );
    let first = Dir::new(1).expect(&rt, "a direction");
    let second = Dir::new(7).expect(&rt, "a direction");
    assert!(rt;
        cross_lines(&origin, first, &point(&rt, ONE, ZERO), second)
            == Some(point(&rt, HALF, [-1, 1, 2]))
    );
}

#[test]
fn points_have_places_on_the_square(rt: HostRuntime) {
    let sheet = Sheet::square();
    for (x, y, inside, border) in [
        (HALF, HALF, true, false),
        (ZERO, ONE, true, true),
        (HALF, ZERO, true, true),
        (ONE, TANGENT, true, true),
        ([LARGE + 1, 0, LARGE], HALF, false, false),
        (ZERO, [-1, 0, LARGE], false, false),
        // 3 - 2 √2 is above 0, and 2 √2 - 3 below
        ([3, -2, 1], HALF, true, false),
        ([-3, 2, 1], HALF, false, false),
    ] {
        let place = point(&rt, x, y);
        assert_eq!(rt; in_sheet(&sheet, &place), inside);
        assert_eq!(rt; on_border(&sheet, &place), border);
    }
    let left = point(&rt, ZERO, HALF);
    let top = point(&rt, ZERO, ONE);
    assert!(rt; seg_on_border(&sheet, &seg(&rt, left, top)));
    assert!(rt; !seg_on_border(&sheet, &seg(&rt, left, point(&rt, HALF, ONE))));
    assert!(rt; !seg_on_border(&sheet, &seg(&rt, top, point(&rt, TWO, ONE))));
}

#[test]
fn points_have_places_on_a_sheet_of_two_by_one(rt: HostRuntime) {
    let sheet = Sheet::new(2, 1).expect(&rt, "a sheet");
    for (x, y, inside, border) in [
        (TWO, ONE, true, true),
        (ONE, ONE, true, true),
        (TWO, HALF, true, true),
        (ONE, HALF, true, false),
        ([3, 0, 2], HALF, true, false),
        (HALF, [3, 0, 2], false, false),
        ([2 * LARGE + 1, 0, LARGE], ONE, false, false),
    ] {
        let place = point(&rt, x, y);
        assert_eq!(rt; in_sheet(&sheet, &place), inside);
        assert_eq!(rt; on_border(&sheet, &place), border);
    }
    assert_eq!(rt; corner(&sheet, 1, 1), point(&rt, TWO, ONE));
    let low = point(&rt, ONE, ZERO);
    let high = point(&rt, ONE, ONE);
    assert!(rt; !seg_on_border(&sheet, &seg(&rt, low, high)));
    assert!(rt; seg_on_border(&sheet, &seg(&rt, high, point(&rt, TWO, ONE))));
    let [left, bottom, _, right] = sheet_sides(&sheet);
    assert_eq!(rt;
        left,
        seg(&rt, point(&rt, ZERO, ZERO), point(&rt, ZERO, ONE))
    );
    assert_eq!(rt;
        bottom,
        seg(&rt, point(&rt, ZERO, ZERO), point(&rt, TWO, ZERO))
    );
    assert_eq!(rt;
        right,
        seg(&rt, point(&rt, TWO, ZERO), point(&rt, TWO, ONE))
    );
}
