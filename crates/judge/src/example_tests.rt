//! The patterns of examples/: each vertex inside the sheet from which a mountain or a valley goes out folds
//! flat, and the others are plain. How many there are of each was counted on the patterns.
use crate::{Judged, Report, Verdict};
use pattern::read_pattern;
use plane::Point;
use std::alloc::Global;
use std::test::Fail;

fn is_passed(judged: &Judged, at: &Point) -> bool {
    match judged.report(at) {
        Some(Report::Judged { star: _, verdict }) => matches!(verdict, Verdict::Passed(_)),
        _ => false,
    }
}

fn is_plain(judged: &Judged, at: &Point) -> bool {
    match judged.report(at) {
        Some(Report::Judged { star: _, verdict }) => matches!(verdict, Verdict::Plain),
        _ => false,
    }
}

/// How many vertices pass, and how many are plain.
fn counts(alloc: Global, text: &[u8]) -> Result<(usize, usize), Fail> {
    let judged = Judged::start(alloc, read_pattern(alloc, text)?)?;
    let cut = judged.subdivision(alloc)?;
    let vertices = cut.vertices();
    let passed = vertices.iter().filter(|at| is_passed(&judged, at)).count();
    let plain = vertices.iter().filter(|at| is_plain(&judged, at)).count();
    Ok((passed, plain))
}

const BIRD_BASE: &[u8] = b"\
    q2 1\nV 0,0 -1+1r/2,1/2\nV 0,0 1/2,-1+1r/2\nA 0,0 1,1\nA 0,1/2 -1+1r/2,1/2\nV 0,1 -1+1r/2,1/2\n\
    V 0,1 1/2,3-1r/2\nM 0,1 1,0\nM -1+1r/2,1/2 1/2,-1+1r/2\nA -1+1r/2,1/2 1/2,3-1r/2\n\
    V -1+1r/2,1/2 3-1r/2,1/2\nA 1/2,0 1/2,-1+1r/2\nV 1/2,-1+1r/2 1/2,3-1r/2\n\
    A 1/2,-1+1r/2 3-1r/2,1/2\nV 1/2,-1+1r/2 1,0\nA 1/2,3-1r/2 1/2,1\nM 1/2,3-1r/2 3-1r/2,1/2\n\
    V 1/2,3-1r/2 1,1\nV 3-1r/2,1/2 1,0\nA 3-1r/2,1/2 1,1/2\nV 3-1r/2,1/2 1,1\n";

const BOX_PLEAT: &[u8] = b"\
    q2 1\nM 0,1/4 1/4,1/4\nV 0,1/2 1/4,1/2\nM 0,3/4 1/4,3/4\nM 1/4,0 1/4,1\nV 1/4,1/4 3/8,1/4\n\
    M 1/4,1/2 3/8,1/2\nV 1/4,3/4 3/8,3/4\nV 3/8,0 3/8,1\nM 3/8,1/4 5/8,1/4\nV 3/8,1/2 5/8,1/2\n\
    M 3/8,3/4 5/8,3/4\nV 5/8,0 5/8,1\nV 5/8,1/4 3/4,1/4\nM 5/8,1/2 3/4,1/2\nV 5/8,3/4 3/4,3/4\n\
    M 3/4,0 3/4,1\nM 3/4,1/4 1,1/4\nV 3/4,1/2 1,1/2\nM 3/4,3/4 1,3/4\n";

const FISH_BASE: &[u8] = b"\
    q2 1\nV 0,0 2-1r/2,1r/2\nV 0,0 1r/2,2-1r/2\nA 0,0 1,1\nM 0,1r/2 2-1r/2,1r/2\nV 0,1 2-1r/2,1r/2\n\
    A 2-1r/2,1r/2 1r/2,2-1r/2\nV 2-1r/2,1r/2 1,1\nM 1r/2,0 1r/2,2-1r/2\nV 1r/2,2-1r/2 1,0\n\
    V 1r/2,2-1r/2 1,1\n";

const FOUR_BIRD_BASES: &[u8] = b"\
    q2 2 8 8\nV 0,0 -2+2r,2\nV 0,0 2,-2+2r\nA 0,0 4,4\nA 0,2 -2+2r,2\nV 0,4 -2+2r,2\nM 0,4 -2+2r,6\n\
    V 0,4 2,6-2r\nM 0,4 2,2+2r\nM 0,4 4,0\nV 0,4 4,4\nV 0,4 4,8\nA 0,6 -2+2r,6\nM 0,8 -2+2r,6\n\
    M 0,8 2,10-2r\nA 0,8 4,4\nM -2+2r,2 2,-2+2r\nA -2+2r,2 2,6-2r\nV -2+2r,2 6-2r,2\n\
    A -2+2r,6 2,2+2r\nV -2+2r,6 2,10-2r\nM -2+2r,6 6-2r,6\nA 2,0 2,-2+2r\nV 2,-2+2r 2,6-2r\n\
    A 2,-2+2r 6-2r,2\nV 2,-2+2r 4,0\nA 2,6-2r 2,4\nM 2,6-2r 6-2r,2\nV 2,6-2r 4,4\nA 2,4 2,2+2r\n\
    M 2,2+2r 2,10-2r\nV 2,2+2r 6-2r,6\nM 2,2+2r 4,4\nA 2,10-2r 2,8\nA 2,10-2r 6-2r,6\n\
    M 2,10-2r 4,8\nV 6-2r,2 4,0\nA 6-2r,2 4,2\nV 6-2r,2 4,4\nM 6-2r,6 4,4\nA 6-2r,6 4,6\n\
    M 6-2r,6 4,8\nM 4,0 4,8\nM 4,0 2+2r,2\nM 4,0 6,-2+2r\nV 4,0 8,4\nA 4,2 2+2r,2\nM 4,4 2+2r,2\n\
    V 4,4 2+2r,6\nM 4,4 6,6-2r\nV 4,4 6,2+2r\nA 4,4 8,0\nM 4,4 8,4\nA 4,4 8,8\nA 4,6 2+2r,6\n\
    V 4,8 2+2r,6\nV 4,8 6,10-2r\nM 4,8 8,4\nA 2+2r,2 6,-2+2r\nV 2+2r,2 6,6-2r\nM 2+2r,2 10-2r,2\n\
    M 2+2r,6 6,2+2r\nA 2+2r,6 6,10-2r\nV 2+2r,6 10-2r,6\nA 6,0 6,-2+2r\nM 6,-2+2r 6,6-2r\n\
    V 6,-2+2r 10-2r,2\nM 6,-2+2r 8,0\nA 6,6-2r 6,4\nA 6,6-2r 10-2r,2\nM 6,6-2r 8,4\nA 6,4 6,2+2r\n\
    V 6,2+2r 6,10-2r\nA 6,2+2r 10-2r,6\nV 6,2+2r 8,4\nA 6,10-2r 6,8\nM 6,10-2r 10-2r,6\n\
    V 6,10-2r 8,8\nM 10-2r,2 8,0\nA 10-2r,2 8,2\nM 10-2r,2 8,4\nV 10-2r,6 8,4\nA 10-2r,6 8,6\n\
    V 10-2r,6 8,8\n";

const GRID_4X4: &[u8] = b"\
    q2 1\nM 0,1/4 1/4,1/4\nV 0,1/2 1/4,1/2\nM 0,3/4 1/4,3/4\nM 1/4,0 1/4,1\nV 1/4,1/4 1/2,1/4\n\
    M 1/4,1/2 1/2,1/2\nV 1/4,3/4 1/2,3/4\nV 1/2,0 1/2,1\nM 1/2,1/4 3/4,1/4\nV 1/2,1/2 3/4,1/2\n\
    M 1/2,3/4 3/4,3/4\nM 3/4,0 3/4,1\nV 3/4,1/4 1,1/4\nM 3/4,1/2 1,1/2\nV 3/4,3/4 1,3/4\n";

const MOLECULE_22_5: &[u8] = b"\
    q2 1\nV 0,0 2-1r/4,1r/4\nV 0,0 1r/4,2-1r/4\nA 0,0 1,1\nM 0,1r/4 2-1r/4,1r/4\n\
    V 0,1/2 2-1r/4,1r/4\nV 0,1/2 2-1r/4,4-1r/4\nM 0,1/2 1,1/2\nM 0,4-1r/4 2-1r/4,4-1r/4\n\
    V 0,1 2-1r/4,4-1r/4\nV 0,1 1r/4,2+1r/4\nM 0,1 1,0\nV 2-1r/4,1r/4 1/2,1/2\n\
    V 2-1r/4,4-1r/4 1/2,1/2\nM 1r/4,0 1r/4,2-1r/4\nV 1r/4,2-1r/4 1/2,0\nV 1r/4,2-1r/4 1/2,1/2\n\
    M 1r/4,2+1r/4 1r/4,1\nV 1r/4,2+1r/4 1/2,1/2\nV 1r/4,2+1r/4 1/2,1\nM 1/2,0 1/2,1\n\
    V 1/2,0 4-1r/4,2-1r/4\nV 1/2,1/2 4-1r/4,2-1r/4\nV 1/2,1/2 4-1r/4,2+1r/4\nV 1/2,1/2 2+1r/4,1r/4\n\
    V 1/2,1/2 2+1r/4,4-1r/4\nV 1/2,1 4-1r/4,2+1r/4\nM 4-1r/4,0 4-1r/4,2-1r/4\nV 4-1r/4,2-1r/4 1,0\n\
    M 4-1r/4,2+1r/4 4-1r/4,1\nV 4-1r/4,2+1r/4 1,1\nV 2+1r/4,1r/4 1,0\nM 2+1r/4,1r/4 1,1r/4\n\
    V 2+1r/4,1r/4 1,1/2\nV 2+1r/4,4-1r/4 1,1/2\nM 2+1r/4,4-1r/4 1,4-1r/4\nV 2+1r/4,4-1r/4 1,1\n";

const RABBIT_EAR: &[u8] = b"\
    q2 1\nV 0,0 2-1r/2,2-1r/2\nV 0,1 2-1r/2,2-1r/2\nA 0,1 1,0\nM 2-1r/2,0 2-1r/2,2-1r/2\n\
    V 2-1r/2,2-1r/2 1,0\n";

const TWO_FISH_BASES: &[u8] = b"\
    q2 2 2 1\nM 0,0 2-1r/2,2-1r/2\nM 0,1 2-1r/2,2-1r/2\nM 0,1 1r/2,1r/2\nA 0,1 1,0\n\
    V 2-1r/2,0 2-1r/2,2-1r/2\nA 2-1r/2,2-1r/2 1r/2,1r/2\nM 2-1r/2,2-1r/2 1,0\nM 1r/2,1r/2 1,0\n\
    V 1r/2,1r/2 1,1r/2\nM 1r/2,1r/2 1,1\nM 1,0 1,1\nV 1,0 4-1r/2,1r/2\nV 1,0 2+1r/2,2-1r/2\n\
    A 1,0 2,1\nM 1,1r/2 4-1r/2,1r/2\nV 1,1 4-1r/2,1r/2\nA 4-1r/2,1r/2 2+1r/2,2-1r/2\n\
    V 4-1r/2,1r/2 2,1\nM 2+1r/2,0 2+1r/2,2-1r/2\nV 2+1r/2,2-1r/2 2,0\nV 2+1r/2,2-1r/2 2,1\n";

const WATERBOMB_BASE: &[u8] = b"\
    q2 1\nV 0,0 1,1\nM 0,1/2 1,1/2\nV 0,1 1,0\n";

#[test]
fn inner_vertices_fold_flat(rt: HostRuntime) -> Result<(), Fail> {
    let alloc = rt.alloc();
    assert_eq!(rt; counts(alloc, BIRD_BASE)?, (9, 0));
    assert_eq!(rt; counts(alloc, BOX_PLEAT)?, (12, 0));
    assert_eq!(rt; counts(alloc, FISH_BASE)?, (2, 1));
    assert_eq!(rt; counts(alloc, FOUR_BIRD_BASES)?, (41, 0));
    assert_eq!(rt; counts(alloc, GRID_4X4)?, (9, 0));
    assert_eq!(rt; counts(alloc, MOLECULE_22_5)?, (9, 0));
    assert_eq!(rt; counts(alloc, RABBIT_EAR)?, (1, 0));
    assert_eq!(rt; counts(alloc, TWO_FISH_BASES)?, (5, 2));
    assert_eq!(rt; counts(alloc, WATERBOMB_BASE)?, (1, 0));
    Ok(())
}
