//! CP text, written.
ghost use Rattle.std.specs.Prelude.{◌≡◌, ◌<◌, ◌++◌, length, IfOk, OnOk};
ghost use Rattle.cpfile.specs.CpText.{IsCpText, type_digit as type_digit_of, place_text, cp_line};

use decimals::{DecimalPoint, decimal_points, put_decimal};
use ports::NoMemory;
use std::alloc::{AllocError, Global};
use subdivide::{Edge, EdgeKind, Subdivision};

/// So many units of 10^-12 are 400, the length in CP text of the length 1.
const SCALE: u64 = 400_000_000_000_000;

/// So many units are 200: the lower left corner of the sheet is at -200 -200.
const ORIGIN: u64 = 200_000_000_000_000;

/// The CP text of a subdivision: a line for each edge, in their order, with the type of the edge,
/// 1 for the border, 2 for a mountain, 3 for a valley and 4 for an auxiliary crease, and the
/// places of its two ends, rounded down to twelve decimals.
///
/// # Errors
///
/// `NoMemory` where memory for the text runs out.
pub fn write_cp(alloc: Global, subdivision: &Subdivision) -> Result<Vec<u8>, NoMemory>
    ensures { IfOk result (λ text. IsCpText subdivision.now text.items) }
{
    let places = decimal_points(alloc, subdivision.vertices(), SCALE, ORIGIN)?;
    let mut text = Vec::new(alloc);
    for edge in subdivision.edges() {
        put_line(&mut text, &places, edge)?;
    }
    Ok(text)
}

/// Appends the line of an edge.
fn put_line(text: &mut Vec<u8>, places: &[DecimalPoint], edge: &Edge) -> Result<(), AllocError>
    requires from { edge.now.from < length places.now }
    requires to { edge.now.to < length places.now }
    ensures { OnOk result (text.new.items ≡ text.old.items ++ cp_line places.now edge.now) }
{
    text.push(type_digit(edge.kind))?;
    text.push(b' ')?;
    put_place(text, &places[edge.from as usize])?;
    text.push(b' ')?;
    put_place(text, &places[edge.to as usize])?;
    text.push(b'\n')?;
    Ok(())
}

/// Appends x and y.
fn put_place(text: &mut Vec<u8>, place: &DecimalPoint) -> Result<(), AllocError>
    ensures { OnOk result (text.new.items ≡ text.old.items ++ place_text place.now) }
{
    text.extend_from_slice(put_decimal(place.x).as_slice())?;
    text.push(b' ')?;
    text.extend_from_slice(put_decimal(place.y).as_slice())?;
    Ok(())
}

/// The digit of what an edge lies on.
fn type_digit(kind: EdgeKind) -> u8
    ensures { result ≡ type_digit_of kind }
{
    match kind {
        EdgeKind::B => b'1',
        EdgeKind::M => b'2',
        EdgeKind::V => b'3',
        EdgeKind::A => b'4',
    }
}
