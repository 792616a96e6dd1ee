//! Why a command is refused, as it is written.
ghost use Rattle.std.specs.Prelude.{◌≡◌, ◌≤◌, ◌++◌, ◌∷◌, length};
ghost use Rattle.qroot2.specs.Text.{numeral};
ghost use Rattle.commands.specs.ReplyText.{cause_word as word_of_cause, cause_rest as rest_of_cause};
ghost use Rattle.commands.specs.ReplyText.{cut_word as word_of_cut, cut_rest as rest_of_cut};
ghost use Rattle.commands.specs.ReplyText.{edit_word as word_of_edit, edit_rest as rest_of_edit};
ghost use Rattle.commands.specs.ReplyText.{cp_word as word_of_cp, cp_rest as rest_of_cp, field_text};
ghost use Rattle.commands.specs.ReplyText.{point_name as name_of_point, ends_text};

use crate::digits::digits;
use arrayvec::ArrayVec;
use cpfile::{CpBad, CpWhy};
use dialogue::Cause;
use edits::{EditBad, PointKind};
use itoa::Buffer;
use plane::{Seg, put_point};
use qroot2::{Num, put_num};
use subdivide::CutBad;

/// A part of a line: at most four points, with a space between them.
pub(crate) type Part = ArrayVec<u8, 335>;

/// Two points, with a space between them.
type Ends = ArrayVec<u8, 167>;

/// The name of the cause, and a space where more comes.
pub(crate) fn cause_word(cause: &Cause) -> &'static [u8]
    ensures { result.now ≡ word_of_cause cause.now }
{
    match cause {
        Cause::NoProject => b"NoProject",
        Cause::Exists => b"Exists",
        Cause::Cut(bad) => cut_word(bad),
        Cause::Stale { rev: _ } => b"Stale ",
        Cause::RevFull => b"RevFull",
        Cause::NothingToUndo => b"NothingToUndo",
        Cause::NothingToRedo => b"NothingToRedo",
        Cause::Cp(bad) => cp_word(&bad.why),
        Cause::Edit(bad) => edit_word(bad),
        Cause::NoVertex => b"NoVertex",
    }
}

/// What belongs to the cause.
pub(crate) fn cause_rest(cause: &Cause) -> Part
    ensures { result.items ≡ rest_of_cause cause.now }
{
    match cause {
        Cause::Cut(bad) => cut_rest(bad),
        Cause::Stale { rev } => number(*rev),
        Cause::Cp(bad) => cp_rest(bad),
        Cause::Edit(bad) => edit_rest(bad),
        Cause::NoProject
        | Cause::Exists
        | Cause::RevFull
        | Cause::NothingToUndo
        | Cause::NothingToRedo
        | Cause::NoVertex => Part::new(),
    }
}

fn cut_word(bad: &CutBad) -> &'static [u8]
    ensures { result.now ≡ word_of_cut bad.now }
{
    match bad {
        CutBad::CrossRange {
            first: _,
            second: _,
        } => b"CrossRange ",
        CutBad::TooManyVertices => b"TooManyVertices",
    }
}

/// The ends of the first crease, and then of the second.
fn cut_rest(bad: &CutBad) -> Part
    ensures { result.items ≡ rest_of_cut bad.now }
{
    match bad {
        CutBad::CrossRange { first, second } => both(&ends(first), &ends(second)),
        CutBad::TooManyVertices => Part::new(),
    }
}

/// Two texts with a space between them.
fn both(first: &Ends, second: &Ends) -> Part
    ensures { result.items ≡ first.now.items ++ 32 ∷ second.now.items }
{
    let mut text = Part::new();
    let _ = text.try_extend_from_slice(first.as_slice());
    text.push(b' ');
    let _ = text.try_extend_from_slice(second.as_slice());
    text
}

/// The ends of a crease, with a space between them.
fn ends(seg: &Seg) -> Ends
    ensures { result.items ≡ ends_text seg.now }
{
    let mut text = Ends::new();
    let _ = text.try_extend_from_slice(put_point(&seg.p()).as_slice());
    text.push(b' ');
    let _ = text.try_extend_from_slice(put_point(&seg.q()).as_slice());
    text
}

fn cp_word(why: &CpWhy) -> &'static [u8]
    ensures { result.now ≡ word_of_cp why.now }
{
    match why {
        CpWhy::TooLong => b"TooLong line ",
        CpWhy::Line => b"Line line ",
        CpWhy::NoNear { field: _ } => b"NoNear line ",
        CpWhy::TwoNear {
            field: _,
            first: _,
            second: _,
        } => b"TwoNear line ",
        CpWhy::NotDirection => b"NotDirection line ",
        CpWhy::InnerContour => b"InnerContour line ",
    }
}

/// The line, and what belongs to the field.
fn cp_rest(bad: &CpBad) -> Part
    ensures { result.items ≡ rest_of_cp bad.now.line bad.now.why }
{
    match bad.why {
        CpWhy::NoNear { field } => field_part(bad.line, field),
        CpWhy::TwoNear {
            field,
            first,
            second,
        } => two_near(bad.line, field, &first, &second),
        CpWhy::TooLong | CpWhy::Line | CpWhy::NotDirection | CpWhy::InnerContour => number(
            bad.line,
        ),
    }
}

/// The numbers of a line and of its field.
fn field_part(line: u64, field: u8) -> Part
    ensures text { result.items ≡ field_text line field }
    ensures short { length result.items ≤ 87 }
{
    let (mut first, mut second) = (Buffer::new(), Buffer::new());
    let mut text = Part::new();
    let _ = text.try_extend_from_slice(digits(&mut first, line));
    let _ = text.try_extend_from_slice(b" field ");
    let _ = text.try_extend_from_slice(digits(&mut second, u64::from(field)));
    text
}

/// The same, with two numbers behind it.
fn two_near(line: u64, field: u8, first: &Num, second: &Num) -> Part
    ensures { result.items ≡ rest_of_cp line (CpWhy.TwoNear field first.now second.now) }
{
    let mut text = field_part(line, field);
    text.push(b' ');
    let _ = text.try_extend_from_slice(put_num(first).as_slice());
    text.push(b' ');
    let _ = text.try_extend_from_slice(put_num(second).as_slice());
    text
}

fn edit_word(bad: &EditBad) -> &'static [u8]
    ensures { result.now ≡ word_of_edit bad.now }
{
    match bad {
        EditBad::Outside => b"Outside",
        EditBad::SamePoint => b"SamePoint",
        EditBad::NotDirection => b"NotDirection",
        EditBad::OnBorder => b"OnBorder",
        EditBad::NoCrease => b"NoCrease",
        EditBad::NoRay { dir: _ } => b"NoRay ",
        EditBad::OddAngle => b"OddAngle",
        EditBad::AtBorder => b"AtBorder",
        EditBad::Covered => b"Covered",
        EditBad::NoMolecule => b"NoMolecule",
        EditBad::Range { point: _ } => b"Range ",
        EditBad::NoChange => b"NoChange",
        EditBad::TooManyCreases { count: _ } => b"TooManyCreases ",
    }
}

fn edit_rest(bad: &EditBad) -> Part
    ensures { result.items ≡ rest_of_edit bad.now }
{
    match bad {
        EditBad::NoRay { dir } => number(u64::from(dir.number())),
        EditBad::Range { point } => part(point_name(*point)),
        EditBad::TooManyCreases { count } => number(*count),
        EditBad::Outside
        | EditBad::SamePoint
        | EditBad::NotDirection
        | EditBad::OnBorder
        | EditBad::NoCrease
        | EditBad::OddAngle
        | EditBad::AtBorder
        | EditBad::Covered
        | EditBad::NoMolecule
        | EditBad::NoChange => Part::new(),
    }
}

fn point_name(point: PointKind) -> &'static [u8]
    ensures text { result.now ≡ name_of_point point }
    ensures short { length result.now ≤ 335 }
{
    match point {
        PointKind::End => b"end",
        PointKind::Image => b"image",
        PointKind::Incentre => b"incentre",
        PointKind::Foot => b"foot",
    }
}

fn number(number: u64) -> Part
    ensures { result.items ≡ numeral number }
{
    let mut buffer = Buffer::new();
    part(digits(&mut buffer, number))
}

fn part(bytes: &[u8]) -> Part
    requires { length bytes.now ≤ 335 }
    ensures { result.items ≡ bytes.now }
{
    let mut text = Part::new();
    let _ = text.try_extend_from_slice(bytes);
    text
}
