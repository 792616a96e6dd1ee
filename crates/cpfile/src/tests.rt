//! CP texts and what reading them answers, worked by hand.
use crate::{CpBad, CpWhy, read_cp};
use creases::Crease;
use lattice::Lattice;
use plane::{Seg, read_point};
use ports::Stop;
use qroot2::{Num, read_num};
use sheet::{Colour, Sheet};
use std::alloc::Global;
use std::process::Abort;

/// A lattice by its three numbers, and a sheet by its two.
#[derive(Clone, Copy)]
struct Measured {
    lattice: Lattice,
    sheet: Sheet,
}

fn by_numbers(rt: &impl Abort, d: u32, k: u32, tol: u32, w: u8, h: u8) -> Measured {
    Measured {
        lattice: Lattice::new(d, k, tol).expect(rt, "a lattice"),
        sheet: Sheet::new(w, h).expect(rt, "a sheet"),
    }
}

/// With the usual lattice on the square.
fn usual(rt: &impl Abort) -> Measured {
    by_numbers(rt, 64, 128, 1000, 1, 1)
}

/// Whether the text is refused, at this line and for this reason.
fn is_refused(alloc: Global, by: Measured, text: &[u8], line: u64, why: CpWhy) -> bool {
    let refused = Some(Stop::Why(CpBad { line, why }));
    read_cp(alloc, text, &by.lattice, &by.sheet).err() == refused
}

/// Whether the text draws so many lines, and so many are dropped.
fn draws(alloc: Global, by: Measured, text: &[u8], lines: usize, dropped: u64) -> bool {
    match read_cp(alloc, text, &by.lattice, &by.sheet) {
        Ok(read) => read.lines.as_slice().len() == lines && read.dropped == dropped,
        Err(_) => false,
    }
}

/// Whether the text draws this line at this place.
fn has(alloc: Global, by: Measured, text: &[u8], at: usize, line: Crease) -> bool {
    match read_cp(alloc, text, &by.lattice, &by.sheet) {
        Ok(read) => match read.lines.as_slice().get(at) {
            Some(drawn) => *drawn == line,
            None => false,
        },
        Err(_) => false,
    }
}

fn crease(rt: &impl Abort, colour: Colour, from: &str, to: &str) -> Crease {
    let p = read_point(from.as_bytes()).ok().expect(rt, "a point");
    let q = read_point(to.as_bytes()).ok().expect(rt, "a point");
    Crease {
        seg: Seg::new(p, q).ok().expect(rt, "a segment"),
        colour,
    }
}

fn number(rt: &impl Abort, text: &str) -> Num {
    read_num(text.as_bytes()).ok().expect(rt, "a number")
}

#[test]
fn a_line_of_the_bird_base_is_read(rt: HostRuntime) {
    let text = b"2 -200.0 -200.0 200.0 -34.31457505076198\n";
    let line = crease(&rt, Colour::M, "0,0", "1,-1+1r");
    assert!(rt; draws(rt.alloc(), usual(&rt), text, 1, 0));
    assert!(rt; has(rt.alloc(), usual(&rt), text, 0, line));
}

#[test]
fn a_decimal_near_no_value_is_refused(rt: HostRuntime) {
    let coarse = by_numbers(&rt, 1, 1, 1000, 1, 1);
    let text = b"2 0.123 -200 200 200";
    assert!(rt; is_refused(rt.alloc(), coarse, text, 1, CpWhy::NoNear { field: 2 }));
}

#[test]
fn a_decimal_near_two_values_is_refused(rt: HostRuntime) {
    let fine = by_numbers(&rt, 64, 1024, 10_000, 1, 1);
    let why = CpWhy::TwoNear {
        field: 2,
        first: number(&rt, "0"),
        second: number(&rt, "577-408r/64"),
    };
    assert!(rt; is_refused(rt.alloc(), fine, b"2 -200 -200 200 200", 1, why));
}

/// The waterbomb base, with its lines split where creases meet.
const SPLIT: &[u8] = b"1 -200.0 -200.0 -200.0 0.0
1 -200.0 0.0 -200.0 200.0
1 -200.0 200.0 200.0 200.0
1 200.0 200.0 200.0 0.0
1 200.0 0.0 200.0 -200.0
1 200.0 -200.0 -200.0 -200.0
3 -200.0 -200.0 0.0 0.0
3 0.0 0.0 200.0 200.0
3 -200.0 200.0 0.0 0.0
3 0.0 0.0 200.0 -200.0
2 -200.0 1.4210854715202004E-14 0.0 0.0
2 0.0 0.0 200.0 0.0
";

#[test]
fn a_waterbomb_base_is_read(rt: HostRuntime) {
    assert!(rt; draws(rt.alloc(), usual(&rt), SPLIT, 6, 6));
    let third = crease(&rt, Colour::V, "0,1", "1/2,1/2");
    assert!(rt; has(rt.alloc(), usual(&rt), SPLIT, 2, third));
    let fifth = crease(&rt, Colour::M, "0,1/2", "1/2,1/2");
    assert!(rt; has(rt.alloc(), usual(&rt), SPLIT, 4, fifth));
}

/// The same in whole lines.
const WHOLE: &[u8] = b"1 -200.0 -200.0 -200.0 200.0
1 -200.0 200.0 200.0 200.0
1 200.0 200.0 200.0 -200.0
1 200.0 -200.0 -200.0 -200.0
3 -200.0 -200.0 200.0 200.0
3 -200.0 200.0 200.0 -200.0
2 -200.0 1.4210854715202004E-14 200.0 0.0
";

#[test]
fn a_waterbomb_base_in_whole_lines_is_read(rt: HostRuntime) {
    assert!(rt; draws(rt.alloc(), usual(&rt), WHOLE, 3, 4));
    let last = crease(&rt, Colour::M, "0,1/2", "1,1/2");
    assert!(rt; has(rt.alloc(), usual(&rt), WHOLE, 2, last));
}

#[test]
fn a_wide_sheet_has_more_values(rt: HostRuntime) {
    let text = b"2 200 -200 600 200";
    let wide = by_numbers(&rt, 64, 128, 1000, 2, 1);
    let line = crease(&rt, Colour::M, "1,0", "2,1");
    assert!(rt; has(rt.alloc(), wide, text, 0, line));
    assert!(rt; is_refused(rt.alloc(), usual(&rt), text, 1, CpWhy::NoNear { field: 4 }));
}

#[test]
fn a_line_of_257_bytes_is_too_long(rt: HostRuntime) {
    assert!(rt; draws(rt.alloc(), usual(&rt), &[b' '; 256], 0, 0));
    assert!(rt; is_refused(rt.alloc(), usual(&rt), &[b' '; 257], 1, CpWhy::TooLong));
}

#[test]
fn lines_of_no_form_are_refused(rt: HostRuntime) {
    for text in [
        "2 0 0 0",
        "2 0 0 0 0 0",
        "5 0 0 0 0",
        "00 0 0 0 0",
        "2 0 0 0 0x",
        "2 999 0 0 .",
        "2,0,0,0,0",
        "2 -200 -200 200 200\r\r\n",
    ] {
        assert!(rt;
            is_refused(rt.alloc(), usual(&rt), text.as_bytes(), 1, CpWhy::Line),
            "{text}"
        );
    }
}

#[test]
fn the_first_field_decides(rt: HostRuntime) {
    let text = b"2 -200 999 999 200";
    assert!(rt; is_refused(rt.alloc(), usual(&rt), text, 1, CpWhy::NoNear { field: 3 }));
}

#[test]
fn the_tolerance_has_its_end(rt: HostRuntime) {
    assert!(rt; draws(rt.alloc(), usual(&rt), b"2 -200.001 -200 200.001 200", 1, 0));
    let text = b"2 -200 -200 200 200.001000000001";
    assert!(rt; is_refused(rt.alloc(), usual(&rt), text, 1, CpWhy::NoNear { field: 5 }));
}

#[test]
fn a_line_in_no_direction_is_refused(rt: HostRuntime) {
    for text in ["2 -200 -200 200 -100", "1 -200 -200 200 -100"] {
        assert!(rt;
            is_refused(
                rt.alloc(),
                usual(&rt),
                text.as_bytes(),
                1,
                CpWhy::NotDirection
            ),
            "{text}"
        );
    }
}

#[test]
fn a_contour_inside_is_refused(rt: HostRuntime) {
    let text = b"1 -200 -200 200 200";
    assert!(rt; is_refused(rt.alloc(), usual(&rt), text, 1, CpWhy::InnerContour));
    assert!(rt;
        draws(
            rt.alloc(),
            usual(&rt),
            b"1 0 0 0.0001 0\n3 0 -200 200 -200",
            0,
            2
        )
    );
}

#[test]
fn auxiliary_lines_are_of_two_types(rt: HostRuntime) {
    let text = b"0 -200 -200 200 200\n4 200 200 -200 -200\n";
    let line = crease(&rt, Colour::A, "0,0", "1,1");
    assert!(rt; has(rt.alloc(), usual(&rt), text, 0, line));
    assert!(rt; has(rt.alloc(), usual(&rt), text, 1, line));
}

#[test]
fn all_lines_are_numbered(rt: HostRuntime) {
    let text = b"\n \t\r\n2 -200 -200 200 200\r\n2\n1";
    assert!(rt; is_refused(rt.alloc(), usual(&rt), text, 4, CpWhy::Line));
}
