//! FOLD text, written.
ghost use Rattle.std.specs.Prelude.{IfOk};
ghost use Rattle.foldfile.specs.FoldText.{IsFoldText};

use crate::items::{Assignment, Coords, Ends, Exact};
use crate::list::put_list;
use decimals::{DecimalPoint, decimal_points};
use plane::Point;
use ports::NoMemory;
use std::alloc::Global;
use subdivide::{Edge, Subdivision};

/// So many units of 10^-12 are 1.
const SCALE: u64 = 1_000_000_000_000;

/// The keys that are the same in each text, and the name of the first list.
const HEAD: &[u8] =
    b"{\"file_spec\":1.1,\"file_creator\":\"oriedit\",\"file_classes\":[\"singleModel\"],\
    \"frame_classes\":[\"creasePattern\"],\"vertices_coords\":";

/// The FOLD text of a subdivision: one JSON object on one line, with the coordinates of the
/// vertices rounded down to twelve decimals, the vertices of each edge and what it lies on, and
/// the exact coordinates of the vertices.
///
/// # Errors
///
/// `NoMemory` where memory for the text runs out.
pub fn write_fold(alloc: Global, subdivision: &Subdivision) -> Result<Vec<u8>, NoMemory>
    ensures { IfOk result (λ text. IsFoldText subdivision.now text.items) }
{
    let places = decimal_points(alloc, subdivision.vertices(), SCALE, 0)?;
    let mut text = Vec::from_slice(alloc, HEAD)?;
    put_list::<DecimalPoint, Coords>(&mut text, &places)?;
    text.extend_from_slice(b",\"edges_vertices\":")?;
    put_list::<Edge, Ends>(&mut text, subdivision.edges())?;
    text.extend_from_slice(b",\"edges_assignment\":")?;
    put_list::<Edge, Assignment>(&mut text, subdivision.edges())?;
    text.extend_from_slice(b",\"q2:vertices_exact\":")?;
    put_list::<Point, Exact>(&mut text, subdivision.vertices())?;
    text.extend_from_slice(b"}\n")?;
    Ok(text)
}
