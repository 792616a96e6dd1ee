//! The text of a point: two number texts with one comma between them.
ghost use Rattle.std.specs.Prelude.{◌≡◌, ◌<◌, length, take, slice_index, IfSome, IfNone, MatchOption};
ghost use Rattle.qroot2.specs.Digits.{Lacks};
ghost use Rattle.plane.specs.PointText.{point_text};
ghost use Rattle.plane.specs.PointReads.{IsCutAtComma, ReadsPoint};

use crate::Point;
use arrayvec::ArrayVec;
use qroot2::{NumText, put_num, read_num};

/// Reads a point text: a number text, a comma and a number text. The bytes are split at the first
/// comma, and are Syntax where there is none. The answer is that of x where x is refused, and else
/// that of y.
pub fn read_point(bytes: &[u8]) -> Result<Point, NumText>
    ensures { ReadsPoint bytes.now result }
{
    let Some((x, y)) = split_at_comma(bytes) else {
        return Err(NumText::Syntax);
    };
    match read_num(x) {
        Err(bad) => Err(bad),
        Ok(x) => match read_num(y) {
            Err(bad) => Err(bad),
            Ok(y) => Ok(Point { x, y }),
        },
    }
}

/// The one text of a point, which `read_point` reads.
pub fn put_point(point: &Point) -> ArrayVec<u8, 83>
    ensures { result.items ≡ point_text point.now }
{
    let mut text = ArrayVec::new();
    let _ = text.try_extend_from_slice(put_num(&point.x).as_slice());
    text.push(b',');
    let _ = text.try_extend_from_slice(put_num(&point.y).as_slice());
    text
}

/// The bytes before the first comma, and those behind it.
fn split_at_comma(bytes: &[u8]) -> Option<(&[u8], &[u8])>
    ensures { MatchOption result (Lacks 44 bytes.now) (λ p. IsCutAtComma bytes.now p.0.now p.1.now) }
{
    let i = comma(bytes)?;
    Some((&bytes[..i], &bytes[i + 1..]))
}

/// The place of the first comma.
fn comma(bytes: &[u8]) -> Option<usize>
    ensures some { IfSome result
        (λ i. (i < length bytes.now) × (slice_index bytes.now i ≡ 44) × Lacks 44 (take i bytes.now)) }
    ensures none { IfNone result (Lacks 44 bytes.now) }
{
    for (i, byte) in bytes.iter().enumerate() {
        if *byte == b',' {
            return Some(i);
        }
    }
    None
}
