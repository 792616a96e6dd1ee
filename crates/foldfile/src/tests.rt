//! FOLD texts that were worked out by hand.
use crate::write_fold;
use pattern::read_pattern;
use std::alloc::Global;
use std::test::Fail;
use subdivide::scratch;

/// Whether this is the FOLD text of the pattern. The text is given without its first keys, in two
/// parts.
fn is_written(alloc: Global, pattern: &[u8], graph: &[u8], exact: &[u8]) -> Result<bool, Fail> {
    let pattern = read_pattern(alloc, pattern)?;
    let cut = scratch(alloc, &pattern)?;
    let mut text = Vec::from_slice(alloc, b"{\"file_spec\":1.1,\"file_creator\":\"oriedit\",")?;
    text.extend_from_slice(b"\"file_classes\":[\"singleModel\"],")?;
    text.extend_from_slice(b"\"frame_classes\":[\"creasePattern\"],")?;
    text.extend_from_slice(graph)?;
    text.extend_from_slice(exact)?;
    text.extend_from_slice(b"\n")?;
    Ok(write_fold(alloc, &cut)?.as_slice() == text.as_slice())
}

#[test]
fn a_blank_sheet_is_written(rt: HostRuntime) -> Result<(), Fail> {
    let graph = b"\"vertices_coords\":[[0.000000000000,0.000000000000],\
        [0.000000000000,1.000000000000],[1.000000000000,0.000000000000],\
        [1.000000000000,1.000000000000]],\"edges_vertices\":[[0,1],[0,2],[1,3],[2,3]],";
    let exact = b"\"edges_assignment\":[\"B\",\"B\",\"B\",\"B\"],\"q2:vertices_exact\":\
        [[0,0,1,0,0,1],[0,0,1,1,0,1],[1,0,1,0,0,1],[1,0,1,1,0,1]]}";
    assert!(rt; is_written(rt.alloc(), b"q2 1\n", graph, exact)?);
    Ok(())
}

/// The crease ends at √2 - 1, which is 0.41421356237309.. and is rounded down.
#[test]
fn a_crease_from_a_corner_is_written(rt: HostRuntime) -> Result<(), Fail> {
    let graph = b"\"vertices_coords\":[[0.000000000000,0.000000000000],\
        [0.000000000000,1.000000000000],[1.000000000000,0.000000000000],\
        [1.000000000000,0.414213562373],[1.000000000000,1.000000000000]],\
        \"edges_vertices\":[[0,1],[0,2],[0,3],[1,4],[2,3],[3,4]],";
    let exact = b"\"edges_assignment\":[\"B\",\"B\",\"M\",\"B\",\"B\",\"B\"],\"q2:vertices_exact\":\
        [[0,0,1,0,0,1],[0,0,1,1,0,1],[1,0,1,0,0,1],[1,0,1,-1,1,1],[1,0,1,1,0,1]]}";
    assert!(rt; is_written(rt.alloc(), b"q2 1\nM 0,0 1,-1+1r\n", graph, exact)?);
    Ok(())
}

/// An auxiliary crease at 2/3, which is rounded down, and a valley on a sheet of 2 by 1.
#[test]
fn a_larger_sheet_is_written(rt: HostRuntime) -> Result<(), Fail> {
    let pattern = b"q2 2 2 1\nA 2/3,0 2/3,1\nV 3/2,0 3/2,1\n";
    let graph = b"\"vertices_coords\":[[0.000000000000,0.000000000000],\
        [0.000000000000,1.000000000000],[0.666666666666,0.000000000000],\
        [0.666666666666,1.000000000000],[1.500000000000,0.000000000000],\
        [1.500000000000,1.000000000000],[2.000000000000,0.000000000000],\
        [2.000000000000,1.000000000000]],\"edges_vertices\":[[0,1],[0,2],[1,3],[2,3],\
        [2,4],[3,5],[4,5],[4,6],[5,7],[6,7]],";
    let exact =
        b"\"edges_assignment\":[\"B\",\"B\",\"B\",\"F\",\"B\",\"B\",\"V\",\"B\",\"B\",\"B\"],\
        \"q2:vertices_exact\":[[0,0,1,0,0,1],[0,0,1,1,0,1],[2,0,3,0,0,1],[2,0,3,1,0,1],\
        [3,0,2,0,0,1],[3,0,2,1,0,1],[2,0,1,0,0,1],[2,0,1,1,0,1]]}";
    assert!(rt; is_written(rt.alloc(), pattern, graph, exact)?);
    Ok(())
}
