//! What stands in the lists of a FOLD text.
ghost use Rattle.std.specs.Prelude.{◌≡◌, ◌++◌, unsigned_abs, OnOk};
ghost use Rattle.qroot2.specs.Text.{numeral, signed_text};
ghost use Rattle.foldfile.specs.FoldText.{coords_text, ends_text, assignment_text, assignment_letter};
ghost use Rattle.foldfile.specs.FoldText.{exact_text, triple_text};

use crate::list::Spell;
use decimals::{DecimalPoint, put_decimal};
use itoa::Buffer;
use plane::Point;
use qroot2::Num;
use std::alloc::AllocError;
use subdivide::{Edge, EdgeKind};

/// A vertex by its coordinates, rounded down.
pub(crate) struct Coords;

impl Spell<DecimalPoint> for Coords {
    ghost spelt = { coords_text };

    fn put(text: &mut Vec<u8>, item: &DecimalPoint) -> Result<(), AllocError> {
        text.push(b'[')?;
        text.extend_from_slice(put_decimal(item.x).as_slice())?;
        text.push(b',')?;
        text.extend_from_slice(put_decimal(item.y).as_slice())?;
        text.push(b']')?;
        Ok(())
    }
}

/// An edge by its two vertices.
pub(crate) struct Ends;

impl Spell<Edge> for Ends {
    ghost spelt = { ends_text };

    fn put(text: &mut Vec<u8>, item: &Edge) -> Result<(), AllocError> {
        text.push(b'[')?;
        put_numeral(text, u64::from(item.from))?;
        text.push(b',')?;
        put_numeral(text, u64::from(item.to))?;
        text.push(b']')?;
        Ok(())
    }
}

/// What an edge lies on.
pub(crate) struct Assignment;

impl Spell<Edge> for Assignment {
    ghost spelt = { assignment_text };

    fn put(text: &mut Vec<u8>, item: &Edge) -> Result<(), AllocError> {
        text.extend_from_slice(&[b'"', letter(item.kind), b'"'])?;
        Ok(())
    }
}

/// A vertex by its exact coordinates.
pub(crate) struct Exact;

impl Spell<Point> for Exact {
    ghost spelt = { exact_text };

    fn put(text: &mut Vec<u8>, item: &Point) -> Result<(), AllocError> {
        text.push(b'[')?;
        put_triple(text, &item.x)?;
        text.push(b',')?;
        put_triple(text, &item.y)?;
        text.push(b']')?;
        Ok(())
    }
}

/// Appends a,b,d of (a + b √2)/d.
fn put_triple(text: &mut Vec<u8>, number: &Num) -> Result<(), AllocError>
    ensures { OnOk result (text.new.items ≡ text.old.items ++ triple_text number.now) }
{
    put_signed(text, number.a())?;
    text.push(b',')?;
    put_signed(text, number.b())?;
    text.push(b',')?;
    put_numeral(text, number.d() as u64)
}

/// Appends a number, with `-` before it where it is below 0.
fn put_signed(text: &mut Vec<u8>, number: i64) -> Result<(), AllocError>
    ensures { OnOk result (text.new.items ≡ text.old.items ++ signed_text number) }
{
    if number < 0 {
        text.push(b'-')?;
        put_numeral(text, number.unsigned_abs())
    } else {
        put_numeral(text, number.unsigned_abs())
    }
}

/// Appends the digits of a number.
#[tactic(auto, using(qroot2::proofs::callers::Decimals::numeral_decimal))]
fn put_numeral(text: &mut Vec<u8>, number: u64) -> Result<(), AllocError>
    ensures { OnOk result (text.new.items ≡ text.old.items ++ numeral number) }
{
    let mut buffer = Buffer::new();
    text.extend_from_slice(buffer.format(number).as_bytes())?;
    Ok(())
}

/// The letter of what an edge lies on.
fn letter(kind: EdgeKind) -> u8
    ensures { result ≡ assignment_letter kind }
{
    match kind {
        EdgeKind::B => b'B',
        EdgeKind::M => b'M',
        EdgeKind::V => b'V',
        EdgeKind::A => b'F',
    }
}
