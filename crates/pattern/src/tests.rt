//! Native texts and what reading them answers, worked by hand.
use crate::PatternWhy::{Line, NotDirection, OnBorder, Order, Outside, Overlap, Range, TooMany};
use crate::{Colour, Crease, PatternBad, PatternWhy, pattern_bytes, read_pattern};
use plane::{Seg, read_point};
use ports::Stop;
use std::alloc::Global;
use std::fmt::Write;
use std::process::Abort;
use std::test::Fail;

/// Whether the text is refused, at this line and for this reason.
fn is_refused(alloc: Global, text: &str, line: u64, why: PatternWhy) -> bool {
    match read_pattern(alloc, text.as_bytes()) {
        Err(Stop::Why(bad)) => bad == PatternBad { line, why },
        _ => false,
    }
}

/// Whether the text is that of a pattern of so many creases, which is written as this text again.
fn is_kept(alloc: Global, text: &str, count: usize) -> bool {
    let Ok(pattern) = read_pattern(alloc, text.as_bytes()) else {
        return false;
    };
    match pattern_bytes(alloc, &pattern) {
        Ok(written) => pattern.len() == count && written.as_slice() == text.as_bytes(),
        Err(_) => false,
    }
}

fn seg(rt: &impl Abort, from: &str, to: &str) -> Seg {
    let p = read_point(from.as_bytes()).ok().expect(rt, "a point");
    let q = read_point(to.as_bytes()).ok().expect(rt, "a point");
    Seg::new(p, q).ok().expect(rt, "a segment")
}

#[test]
fn other_first_lines_are_refused(rt: HostRuntime) {
    for text in [
        "",
        "q2 1",
        "q2 2\n",
        "q2 1\r\n",
        "\nq2 1\n",
        "M 0,0 1,1\n",
        // The square has format 1 alone.
        "q2 2 1 1\n",
        "q2 2 9 1\n",
        "q2 2 1 9\n",
        "q2 2 0 1\n",
        "q2 2 2 1",
        "q2 2 2 1 \n",
        "q2 2 02 1\n",
        "q2 2 2,1\n",
        "q2 2 2\n",
        "q2 1 2 1\n",
    ] {
        assert!(rt; is_refused(rt.alloc(), text, 1, Line), "{text}");
    }
}

#[test]
fn lines_of_other_forms_are_refused(rt: HostRuntime) {
    for text in [
        "q2 1\nm 0,0 1,1\n",
        "q2 1\nB 0,0 1,1\n",
        "q2 1\nM 0,2/4 1,1/2\n",
        "q2 1\nM 0,0 1,1",
        "q2 1\n\n",
        "q2 1\nM 0,0\n",
        "q2 1\nM 0,0  1,1\n",
        "q2 1\nM 0,0 1,1 \n",
        "q2 1\nM 0,0 1,1\r\n",
        "q2 1\nM 0 1,1\n",
        // Beside a number out of range too, on either side of it.
        "q2 1\nM 0,1/1048577 1,2/4\n",
        "q2 1\nM 2/4,0 1,1/1048577\n",
        // On a later line too, where one is bad for another reason.
        "q2 1\nB 0,0 1,1\nM 0,0 1,0\n",
    ] {
        assert!(rt; is_refused(rt.alloc(), text, 2, Line), "{text}");
    }
}

#[test]
fn a_single_line_is_refused_by_its_first_test(rt: HostRuntime) {
    for (text, why) in [
        ("q2 1\nM 0,1/1048577 1,1\n", Range),
        ("q2 1\nM 281474976710657,0 0,0\n", Range),
        ("q2 1\nM 0,0 2,2\n", Outside),
        ("q2 1\nM 2,2 0,0\n", Outside),
        ("q2 1\nM 1,1 0,0\n", Order),
        ("q2 1\nM 0,0 0,0\n", Order),
        ("q2 1\nM 1,1/3 0,0\n", Order),
        ("q2 1\nM 1,0 0,0\n", Order),
        ("q2 1\nM 0,0 1,1/3\n", NotDirection),
        ("q2 1\nM 0,0 1,0\n", OnBorder),
        ("q2 1\nM 0,0 1,0\nB 0,0 1,1\n", OnBorder),
        // On a sheet of width 2 and height 1.
        ("q2 2 2 1\nM 0,0 2,2\n", Outside),
        ("q2 2 2 1\nM 0,0 0,2\n", Outside),
        ("q2 2 2 1\nM 0,0 0,1\n", OnBorder),
        ("q2 2 2 1\nM 1/2,1 3/2,1\n", OnBorder),
        ("q2 2 2 1\nM 2,0 2,1\n", OnBorder),
    ] {
        assert!(rt; is_refused(rt.alloc(), text, 2, why), "{text}");
    }
}

#[test]
fn a_second_line_is_refused_beside_the_first(rt: HostRuntime) {
    for (text, why) in [
        ("q2 1\nM 0,0 1,1\nM", Line),
        ("q2 1\nM 0,0 1,1\nM 0,0 1,1\n", Order),
        ("q2 1\nM 0,0 1,1\nV 0,0 1,1\n", Order),
        ("q2 1\nM 0,0 1,1\nV 0,0 1/2,1/2\n", Order),
        ("q2 1\nM 1/2,0 1/2,1\nM 0,0 1,1\n", Order),
        ("q2 1\nM 0,1/2 3/4,1/2\nV 1/2,1/2 1,1/2\n", Overlap),
        ("q2 1\nM 0,1/2 3/4,1/2\nM 1/2,1/2 1,1/2\n", Overlap),
        ("q2 1\nM 0,0 1/2,1/2\nM 0,0 1,1\n", Overlap),
        ("q2 1\nM 0,1/2 1,1/2\nV 1/4,1/2 3/4,1/2\n", Overlap),
    ] {
        assert!(rt; is_refused(rt.alloc(), text, 3, why), "{text}");
    }
    // The earlier segment need not be that of the line before.
    let apart = "q2 1\nM 0,1/2 1,1/2\nV 1/4,0 1/4,1\nA 1/2,1/2 3/4,1/2\n";
    assert!(rt; is_refused(rt.alloc(), apart, 4, Overlap));
}

#[test]
fn texts_of_patterns_are_kept(rt: HostRuntime) {
    for (text, count) in [
        ("q2 1\n", 0),
        // Creases of one line that touch.
        (
            "q2 1\nM 0,1/2 1/4,1/2\nV 1/4,1/2 3/4,1/2\nM 3/4,1/2 1,1/2\n",
            3,
        ),
        // Creases that cross.
        ("q2 1\nM 0,1/2 1,1/2\nV 1/2,0 1/2,1\n", 2),
        // Ends in the field of √2.
        ("q2 1\nM 0,0 1,-1+1r\nV 0,0 1,1\nA 0,1 1r/2,2-1r/2\n", 3),
        // What is a side of the square is none of a larger sheet.
        ("q2 2 2 1\nM 1,0 1,1\n", 1),
        ("q2 2 1 2\nM 0,1 1,1\n", 1),
        ("q2 2 8 8\nM 0,0 8,8\nV 0,7 1,8\n", 2),
    ] {
        assert!(rt; is_kept(rt.alloc(), text, count), "{text}");
    }
}

#[test]
fn one_line_above_the_limit_is_refused(rt: HostRuntime) -> Result<(), Fail> {
    let mut text = String::new(rt.alloc());
    write!(text, "q2 1\n")?;
    // 20011 is a prime, so that the numbers are in lowest terms.
    for n in 1..20001u32 {
        write!(text, "A 0,{n}/20011 1,{n}/20011\n")?;
    }
    assert!(rt; is_kept(rt.alloc(), text.as_str(), 20_000));
    write!(text, "M 1/2,0 1/2,1\n")?;
    assert!(rt; is_refused(rt.alloc(), text.as_str(), 20_002, TooMany));
    Ok(())
}

#[test]
fn creases_are_looked_up_by_segments(rt: HostRuntime) -> Result<(), Fail> {
    let pattern = read_pattern(rt.alloc(), b"q2 1\nM 0,0 1,1\nV 0,1 1/2,1/2\n")?;
    let rising = seg(&rt, "0,0", "1,1");
    let falling = seg(&rt, "0,1", "1/2,1/2");
    assert!(rt; pattern.colour(&rising) == Some(Colour::M));
    assert!(rt; pattern.colour(&falling) == Some(Colour::V));
    // A part of a crease is no crease, and overlaps one.
    assert!(rt; pattern.colour(&seg(&rt, "0,0", "1/2,1/2")) == None);
    let mut found = pattern.overlapping(&seg(&rt, "1/4,1/4", "1/2,1/2"));
    assert!(rt;
        found.next()
            == Some(Crease {
                seg: rising,
                colour: Colour::M
            })
    );
    assert!(rt; found.next() == None);
    let mut creases = pattern.creases();
    assert!(rt;
        creases.next()
            == Some(Crease {
                seg: rising,
                colour: Colour::M
            })
    );
    assert!(rt;
        creases.next()
            == Some(Crease {
                seg: falling,
                colour: Colour::V
            })
    );
    assert!(rt; creases.next() == None);
    Ok(())
}
