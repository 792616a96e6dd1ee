//! The text of one segment, and of one crease.
ghost use Rattle.std.specs.Prelude.{◌≡◌, IfSome, IsNone};
ghost use Rattle.exact.specs.Plane.{ExactSegment};
ghost use Rattle.plane.specs.Segments.{IsHeld};
ghost use Rattle.sheet.specs.Pattern.{ExactCrease};
ghost use Rattle.pattern.specs.NativeText.{seg_text, crease_text};
ghost use Rattle.pattern.specs.SingleText.{IsSegText, IsCreaseText};

use super::line::{colour_of, letter_and_ends, read_end};
use super::split::split;
use super::write::letter;
use crate::Crease;
use arrayvec::ArrayVec;
use plane::{Point, Seg, is_before, put_point};

/// The segment whose text these bytes are: two point texts with one space between them, the lesser
/// end first. None exactly where they are the text of no segment.
pub fn read_seg(text: &[u8]) -> Option<Seg>
    ensures some { IfSome result (IsSegText text.now) }
    ensures none { IsNone result → (s : ExactSegment) → ¬ IsSegText text.now s }
{
    let (from, to) = split(text, b' ')?;
    let p = read_end(from).ok()?;
    let q = read_end(to).ok()?;
    seg_between(p, q)
}

/// The segment from one point to a later one, or None where the second is not later or no direction
/// joins them.
fn seg_between(p: Point, q: Point) -> Option<Seg>
    ensures some { IfSome result (λ s. IsHeld s × (s ≡ record { p = p; q = q })) }
    ensures none { IsNone result → ¬ IsHeld (record { p = p; q = q }) }
{
    if is_before(&p, &q) {
        Seg::new(p, q).ok()
    } else {
        None
    }
}

/// The one text of a segment, which `read_seg` reads: the lesser end, a space and the greater end.
pub fn put_seg(seg: &Seg) -> ArrayVec<u8, 167>
    ensures { result.items ≡ seg_text seg.now }
{
    let mut text = ArrayVec::new();
    let _ = text.try_extend_from_slice(put_point(&seg.p()).as_slice());
    text.push(b' ');
    let _ = text.try_extend_from_slice(put_point(&seg.q()).as_slice());
    text
}

/// The crease whose text these bytes are: the letter `M`, `V` or `A`, one space and the text of the
/// segment. None exactly where they are the text of no crease.
pub fn read_crease(text: &[u8]) -> Option<Crease>
    ensures some { IfSome result (IsCreaseText text.now) }
    ensures none { IsNone result → (f : ExactCrease) → ¬ IsCreaseText text.now f }
{
    let (first, ends) = letter_and_ends(text)?;
    let colour = colour_of(first)?;
    let seg = read_seg(ends)?;
    Some(Crease { seg, colour })
}

/// The one text of a crease, which `read_crease` reads: the letter of its colour, a space and the
/// text of its segment.
pub fn put_crease(crease: &Crease) -> ArrayVec<u8, 169>
    ensures { result.items ≡ crease_text crease.now }
{
    let mut text = ArrayVec::new();
    text.push(letter(crease.colour));
    text.push(b' ');
    let _ = text.try_extend_from_slice(put_seg(&crease.seg).as_slice());
    text
}
