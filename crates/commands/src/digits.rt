//! Digits and letters.
ghost use Rattle.std.specs.Prelude.{◌≡◌, ◌≤◌, length};
ghost use Rattle.qroot2.specs.Text.{numeral};
ghost use Rattle.plane.specs.PointText.{point_text};
ghost use Rattle.commands.specs.Spelling.{mark_letter as mark_letter_of};
ghost use Rattle.commands.specs.ReplyText.{kind_letter as kind_letter_of, line_count};

use itoa::Buffer;
use plane::{Point, put_point};
use sheet::Mark;
use subdivide::EdgeKind;

/// The decimal digits of a number.
#[tactic(auto, using(qroot2::proofs::callers::Decimals::numeral_decimal))]
pub(crate) fn digits(buffer: &mut Buffer, number: u64) -> &[u8]
    ensures text { result.now ≡ numeral number }
    ensures short { length result.now ≤ 40 }
{
    buffer.format(number).as_bytes()
}

/// How many digits a number has.
pub(crate) fn digits_len(number: u64) -> u64
    ensures len { result ≡ length (numeral number) }
    ensures short { result ≤ 40 }
{
    let mut buffer = Buffer::new();
    digits(&mut buffer, number).len() as u64
}

/// How long the text of a point is.
pub(crate) fn point_len(point: &Point) -> u64
    ensures len { result ≡ length (point_text point.now) }
    ensures short { result ≤ 83 }
{
    put_point(point).as_slice().len() as u64
}

/// How many line feeds there are.
pub(crate) fn line_feeds(bytes: &[u8]) -> usize
    ensures { result ≡ line_count bytes.now }
{
    bytes.iter().filter(|byte| **byte == b'\n').count()
}

/// The letter of what an edge lies on.
pub(crate) fn kind_letter(kind: EdgeKind) -> u8
    ensures { result ≡ kind_letter_of kind }
{
    match kind {
        EdgeKind::B => b'B',
        EdgeKind::M => b'M',
        EdgeKind::V => b'V',
        EdgeKind::A => b'A',
    }
}

/// The letter of a mark.
pub(crate) fn mark_letter(mark: Mark) -> u8
    ensures { result ≡ mark_letter_of mark }
{
    match mark {
        Mark::M => b'M',
        Mark::V => b'V',
    }
}
