//! Small patterns whose subdivisions were worked out by hand.
use crate::EdgeKind::{A, B, M, V};
use crate::{CutBad, Edge, EdgeKind, Subdivision, scratch};
use pattern::read_pattern;
use ports::Stop;
use std::alloc::Global;
use std::test::Fail;

fn cut_of(alloc: Global, text: &[u8]) -> Result<Subdivision, Fail> {
    let pattern = read_pattern(alloc, text)?;
    let cut = scratch(alloc, &pattern)?;
    Ok(cut)
}

fn edge(from: u32, to: u32, kind: EdgeKind) -> Edge {
    Edge { from, to, kind }
}

#[test]
fn blank_sheet(rt: HostRuntime) -> Result<(), Fail> {
    let cut = cut_of(rt.alloc(), b"q2 1\n")?;
    let edges = [edge(0, 1, B), edge(0, 2, B), edge(1, 3, B), edge(2, 3, B)];
    assert_eq!(rt; cut.vertices().len(), 4);
    assert_eq!(rt; cut.edges(), edges.as_slice());
    Ok(())
}

/// On a sheet of 2 by 1 the line where a square would end is a crease, not a side.
#[test]
fn crease_inside_a_larger_sheet(rt: HostRuntime) -> Result<(), Fail> {
    let cut = cut_of(rt.alloc(), b"q2 2 2 1\nM 1,0 1,1\n")?;
    let edges = [
        edge(0, 1, B),
        edge(0, 2, B),
        edge(1, 3, B),
        edge(2, 3, M),
        edge(2, 4, B),
        edge(3, 5, B),
        edge(4, 5, B),
    ];
    assert_eq!(rt; cut.vertices().len(), 6);
    assert_eq!(rt; cut.edges(), edges.as_slice());
    Ok(())
}

/// A crease from corner to corner adds no vertex.
#[test]
fn diagonal(rt: HostRuntime) -> Result<(), Fail> {
    let cut = cut_of(rt.alloc(), b"q2 1\nM 0,0 1,1\n")?;
    let edges = [
        edge(0, 1, B),
        edge(0, 2, B),
        edge(0, 3, M),
        edge(1, 3, B),
        edge(2, 3, B),
    ];
    assert_eq!(rt; cut.vertices().len(), 4);
    assert_eq!(rt; cut.edges(), edges.as_slice());
    Ok(())
}

/// A crease that ends inside another cuts it in two.
#[test]
fn crease_ends_inside_another(rt: HostRuntime) -> Result<(), Fail> {
    let cut = cut_of(rt.alloc(), b"q2 1\nM 0,1/2 1,1/2\nV 1/2,0 1/2,1/2\n")?;
    let edges = [
        edge(0, 1, B),
        edge(0, 3, B),
        edge(1, 2, B),
        edge(1, 4, M),
        edge(2, 7, B),
        edge(3, 4, V),
        edge(3, 5, B),
        edge(4, 6, M),
        edge(5, 6, B),
        edge(6, 7, B),
    ];
    assert_eq!(rt; cut.vertices().len(), 8);
    assert_eq!(rt; cut.edges(), edges.as_slice());
    Ok(())
}

/// Two diagonals have one vertex in the middle, though it is no end.
#[test]
fn crossing_in_the_middle(rt: HostRuntime) -> Result<(), Fail> {
    let cut = cut_of(rt.alloc(), b"q2 1\nM 0,0 1,1\nA 0,1 1,0\n")?;
    let edges = [
        edge(0, 1, B),
        edge(0, 2, M),
        edge(0, 3, B),
        edge(1, 2, A),
        edge(1, 4, B),
        edge(2, 3, A),
        edge(2, 4, M),
        edge(3, 4, B),
    ];
    assert_eq!(rt; cut.vertices().len(), 5);
    assert_eq!(rt; cut.edges(), edges.as_slice());
    Ok(())
}

/// The diagonal meets each of the two others at (2 + √2) / 2d with an odd d, and 2d is too large.
#[test]
fn least_pair_out_of_range(rt: HostRuntime) -> Result<(), Fail> {
    let text =
        b"q2 1\nM 0,0 1,1\nM 0,1/1048575 1,-1048574+1048575r/1048575\nM 0,1/1048573 1,-1048572+1048573r/1048573\n";
    let pattern = read_pattern(rt.alloc(), text)?;
    let mut creases = pattern.creases();
    let first = creases.next().ok_or("no crease")?.seg;
    let second = creases.next().ok_or("one crease")?.seg;
    match scratch(rt.alloc(), &pattern) {
        Err(bad) => {
            let least = CutBad::CrossRange { first, second };
            assert_eq!(rt; bad, Stop::Why(least));
        }
        Ok(_) => panic!(rt; "cut"),
    }
    Ok(())
}
