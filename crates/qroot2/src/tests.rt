//! Worked values: tables of the interface, and numbers where the arithmetic is hardest.
use crate::{Dir, Num, NumText, Sign, Wide, put_num, read_num};
use std::cmp::Ordering;
use std::process::Abort;

fn num(rt: &impl Abort, a: i64, b: i64, d: u32) -> Option<Num> {
    assert!(rt; d > 0);
    Num::new(i128::from(a), i128::from(b), i128::from(d))
}

// 665857 and 470832, 275807 and 195025 are neighbours in the continued fraction of √2. So are the
// last two pairs, just below 2^120.
#[test]
fn signs(rt: HostRuntime) {
    for (a, b, want) in [
        (665857, -470832, Sign::Plus),
        (275807, -195025, Sign::Minus),
        (4, -3, Sign::Minus),
        (-4, 3, Sign::Plus),
        (0, 0, Sign::Zero),
        (1 << 120, -(1 << 120), Sign::Minus),
        (LARGE_A, -LARGE_B, Sign::Minus),
        (LARGE_C, -LARGE_D, Sign::Plus),
    ] {
        assert_eq!(rt; Wide::new(a, b).sign(), want, "at {a} and {b}");
    }
}

const LARGE_A: i128 = 1155207796880714346660312607673463359;

const LARGE_B: i128 = 816855266853924917324142465625655521;

const LARGE_C: i128 = 478502736827135487987972323577847683;

const LARGE_D: i128 = 338352530026789429336170142047807838;

#[test]
fn limits(rt: HostRuntime) {
    for (a, d, held) in [
        (1 << 48, 1, true),
        ((1 << 48) + 1, 1, false),
        (-(1 << 48), 1, true),
        (-(1 << 48) - 1, 1, false),
        (1 << 49, 2, true),
        (1, 1 << 20, true),
        (1, (1 << 20) + 1, false),
        (3, 3 << 20, true),
        (0, u32::MAX, true),
    ] {
        assert_eq!(rt; num(&rt, a, 0, d).is_some(), held, "at {a} over {d}");
    }
}

#[test]
fn wide_operators(rt: HostRuntime) {
    let x = Wide::new(3, -2);
    let y = Wide::new(1, 1);
    assert_eq!(rt; x + y, Wide::new(4, -1));
    assert_eq!(rt; x - y, Wide::new(2, -3));
    assert_eq!(rt; (-x).b(), 2);
}

// Each row is two numbers, and their sum, difference and product, where they are in range.
#[test]
fn arithmetic(rt: HostRuntime) {
    for (x, y, sum, difference, product) in [
        ("2-1r/2", "2+1r/2", "2", "-1r", "1/2"),
        ("1r", "1r/2", "3r/2", "1r/2", "1"),
        ("1/1024", "1/1024", "1/512", "0", "1/1048576"),
        ("1/1024", "1/1025", "", "", ""),
        (
            "281474976710656",
            "1",
            "",
            "281474976710655",
            "281474976710656",
        ),
        (
            "665857-470832r",
            "665857+470832r",
            "1331714",
            "-941664r",
            "1",
        ),
        ("1+1r", "1+1r", "2+2r", "0", "3+2r"),
    ] {
        let (Ok(x), Ok(y)) = (read_num(x.as_bytes()), read_num(y.as_bytes())) else {
            assert!(rt; false);
            return;
        };
        assert_eq!(rt; x.add(&y), read_num(sum.as_bytes()).ok());
        assert_eq!(rt; x.sub(&y), read_num(difference.as_bytes()).ok());
        assert_eq!(rt; x.mul(&y), read_num(product.as_bytes()).ok());
        assert_eq!(rt; (-x).sub(&-y), y.sub(&x));
    }
}

#[test]
fn order(rt: HostRuntime) {
    for (x, y, want) in [
        ("665857/470832", "1r", Ordering::Greater),
        ("275807/195025", "1r", Ordering::Less),
        ("665857-470832r/1048575", "0", Ordering::Greater),
        ("0", "275807-195025r/1048573", Ordering::Greater),
        ("1r/2", "1r/2", Ordering::Equal),
        ("281474976710655", "281474976710656", Ordering::Less),
        ("1/1048576", "1/1048575", Ordering::Less),
        ("2-1r", "1", Ordering::Less),
    ] {
        let (Ok(x), Ok(y)) = (read_num(x.as_bytes()), read_num(y.as_bytes())) else {
            assert!(rt; false);
            return;
        };
        assert_eq!(rt; x.cmp(&y), want);
        assert_eq!(rt; y.cmp(&x), want.reverse());
        assert_eq!(rt; x == y, want.is_eq());
    }
}

#[test]
fn floors(rt: HostRuntime) {
    for (x, n, want) in [
        ("-1+1r", 1000000000000, 414213562373),
        ("1-1r", 1000000000000, -414213562374),
        ("-1/2", 7, -4),
        ("-1r", 0, 0),
        (
            "281474976710656+281474976710656r",
            400000000000000,
            271816282497406714115595358963,
        ),
        ("665857-470832r/1048575", 400000000000000, 286),
    ] {
        let Ok(x) = read_num(x.as_bytes()) else {
            assert!(rt; false);
            return;
        };
        assert_eq!(rt; x.floor_scaled(n), want);
    }
}

fn small(a: i8, b: i8) -> Wide {
    Wide::new(i128::from(a), i128::from(b))
}

#[test]
fn directions(rt: HostRuntime) {
    for (first, second, middle, det) in [
        (0, 4, Some(2), (1, 0)),
        (4, 0, Some(10), (-1, 0)),
        (0, 0, Some(8), (0, 0)),
        (0, 1, None, (-1, 1)),
        (1, 15, Some(8), (2, -2)),
        (2, 6, Some(4), (2, 0)),
        (3, 7, Some(5), (4, -2)),
    ] {
        let (Some(first), Some(second)) = (Dir::new(first), Dir::new(second)) else {
            assert!(rt; false);
            return;
        };
        assert_eq!(rt; Dir::middle(first, second).map(|d| d.number()), middle);
        assert_eq!(rt; Dir::det(first, second), small(det.0, det.1));
        assert_eq!(rt; first.turn(8), first.opposite());
        assert_eq!(rt; second.mirror(first).mirror(first), second);
    }
    assert!(rt; Dir::new(16).is_none());
}

#[test]
fn texts(rt: HostRuntime) {
    for (text, a, b, d) in [
        ("0", 0, 0, 1),
        ("-3", -3, 0, 1),
        ("1/2", 1, 0, 2),
        ("1r", 0, 1, 1),
        ("-1r/2", 0, -1, 2),
        ("-1+1r", -1, 1, 1),
        ("2-1r/2", 2, -1, 2),
        ("577-408r/64", 577, -408, 64),
        ("281474976710656", 1 << 48, 0, 1),
        (
            "-281474976710655-281474976710656r/1048576",
            -(1 << 48) + 1,
            -(1 << 48),
            1 << 20,
        ),
    ] {
        let Some(num) = num(&rt, a, b, d) else {
            assert!(rt; false);
            return;
        };
        assert_eq!(rt; read_num(text.as_bytes()), Ok(num), "at {text}");
        assert_eq!(rt; put_num(&num).as_slice(), text.as_bytes(), "at {text}");
    }
}

#[test]
fn refused_texts(rt: HostRuntime) {
    for (text, want) in [
        ("281474976710657", NumText::Range),
        ("-1-281474976710657r", NumText::Range),
        ("1/1048577", NumText::Range),
        ("0/2097152", NumText::Range),
        (
            "99999999999999999999999999999999999999999999999999/2",
            NumText::Range,
        ),
        ("2/4", NumText::Syntax),
        ("0/2", NumText::Syntax),
        ("2-4r/6", NumText::Syntax),
        ("01", NumText::Syntax),
        ("-0", NumText::Syntax),
        ("0+1r", NumText::Syntax),
        ("1/1", NumText::Syntax),
        ("1/0", NumText::Syntax),
        ("+1", NumText::Syntax),
        ("1+0r", NumText::Syntax),
        ("1+-1r", NumText::Syntax),
        ("1r2", NumText::Syntax),
        ("1-1", NumText::Syntax),
        ("r", NumText::Syntax),
        ("-", NumText::Syntax),
        ("1/2/3", NumText::Syntax),
        (" 1", NumText::Syntax),
        ("", NumText::Syntax),
        ("09999999999999999999999999", NumText::Syntax),
    ] {
        assert_eq!(rt; read_num(text.as_bytes()), Err(want), "at {text}");
    }
}
