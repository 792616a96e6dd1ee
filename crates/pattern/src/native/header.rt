//! The first line of native text, which says on which sheet the pattern is.
ghost use Rattle.std.specs.Prelude.{◌≡◌, ◌≢◌, ◌++◌, ◌∷◌, ℕ, List, IfSome, IsNone, IsTrue, IsFalse, OnOk};
ghost use Rattle.std.specs.Prelude.{drop};
ghost use Rattle.sheet.specs.Sheet.{ExactSheet};
ghost use Rattle.pattern.specs.NativeText.{header, square_line, other_start};
ghost use Rattle.pattern.specs.NativeReading.{HasNoHeader};
ghost use Rattle.pattern.specs.NativeReader.{HasHeader};
ghost use Rattle.pattern.specs.NativeHeader.{AreDigits};

use sheet::Sheet;
use std::alloc::AllocError;

/// The line of the sheet of width 1 and height 1, with its line feed.
const SQUARE: &[u8] = b"q2 1\n";

/// The line of every other sheet up to its width.
const OTHER: &[u8] = b"q2 2 ";

/// The sheet whose line the bytes begin with, and the length of that line with its line feed, or
/// None where they begin with no sheet's line.
pub(super) fn read_header(bytes: &[u8]) -> Option<(Sheet, usize)>
    ensures some { IfSome result (λ found. HasHeader bytes.now found.0 found.1) }
    ensures none { IsNone result → HasNoHeader bytes.now }
{
    if is_square(bytes) {
        return Some((Sheet::square(), SQUARE.len()));
    }
    let rest = after_start(bytes)?;
    let (w, h) = digits(rest)?;
    let sheet = sheet_of(w, h)?;
    Some((sheet, OTHER.len() + 4))
}

/// Whether the bytes begin with the line of the square.
fn is_square(bytes: &[u8]) -> bool
    ensures yes { IsTrue result → (rest : List ℕ) × (bytes.now ≡ square_line ++ rest) }
    ensures no { IsFalse result → (rest : List ℕ) → bytes.now ≢ square_line ++ rest }
{
    bytes.starts_with(SQUARE)
}

/// What stands behind the start of another sheet's line, or None where the bytes do not begin so.
fn after_start(bytes: &[u8]) -> Option<&[u8]>
    ensures some { IfSome result (λ rest. bytes.now ≡ other_start ++ rest.now) }
    ensures none { IsNone result → (rest : List ℕ) → bytes.now ≢ other_start ++ rest }
{
    if bytes.starts_with(OTHER) {
        Some(&bytes[OTHER.len()..])
    } else {
        None
    }
}

/// Two bytes with a space between them and a line feed behind them.
fn digits(rest: &[u8]) -> Option<(u8, u8)>
    ensures some { IfSome result (λ two. rest.now ≡ two.0 ∷ 32 ∷ two.1 ∷ 10 ∷ drop 4 rest.now) }
    ensures none { IsNone result → (w h : ℕ) (more : List ℕ) → rest.now ≢ w ∷ 32 ∷ h ∷ 10 ∷ more }
{
    match rest {
        [w, space, h, end, ..] => {
            if *space == b' ' && *end == b'\n' {
                Some((*w, *h))
            } else {
                None
            }
        }
        _ => None,
    }
}

/// The sheet that is not the square and whose width and height these two digits spell.
fn sheet_of(w: u8, h: u8) -> Option<Sheet>
    ensures some { IfSome result (AreDigits w h) }
    ensures none { IsNone result → (sheet : ExactSheet) → ¬ AreDigits w h sheet }
{
    if w < b'1' || h < b'1' || (w == b'1' && h == b'1') {
        return None;
    }
    Sheet::new(w - b'0', h - b'0')
}

/// Appends the line of a sheet.
pub(super) fn put_header(text: &mut Vec<u8>, sheet: &Sheet) -> Result<(), AllocError>
    ensures { OnOk result (text.new.items ≡ text.old.items ++ header sheet.now) }
{
    if sheet.w() == 1 && sheet.h() == 1 {
        text.extend_from_slice(SQUARE)?;
        return Ok(());
    }
    text.extend_from_slice(OTHER)?;
    text.push(b'0' + sheet.w())?;
    text.push(b' ')?;
    text.push(b'0' + sheet.h())?;
    text.push(b'\n')?;
    Ok(())
}
