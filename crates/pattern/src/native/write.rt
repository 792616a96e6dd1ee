//! The native text of a pattern, written.
ghost use Rattle.std.specs.Prelude.{◌≡◌, ◌++◌, OnOk, IfOk};
ghost use Rattle.pattern.specs.NativeText.{letter as letter_of, line_text, pattern_text};

use super::header::put_header;
use crate::{Crease, Pattern};
use plane::put_point;
use ports::NoMemory;
use sheet::Colour;
use std::alloc::{AllocError, Global};

/// The one native text of a pattern, which `read_pattern` reads as this pattern again.
///
/// # Errors
///
/// `NoMemory` where memory for the text runs out.
pub fn pattern_bytes(alloc: Global, pattern: &Pattern) -> Result<Vec<u8>, NoMemory>
    ensures { IfOk result (λ text. text.items ≡ pattern_text pattern.now) }
{
    let mut text = Vec::new(alloc);
    put_header(&mut text, &pattern.sheet())?;
    for crease in pattern.creases() {
        put_line(&mut text, &crease)?;
    }
    Ok(text)
}

/// Appends the line of a crease.
pub(super) fn put_line(text: &mut Vec<u8>, crease: &Crease) -> Result<(), AllocError>
    ensures { OnOk result
        (text.new.items ≡ text.old.items ++ line_text crease.now.colour crease.now.seg.p crease.now.seg.q) }
{
    text.push(letter(crease.colour))?;
    text.push(b' ')?;
    text.extend_from_slice(put_point(&crease.seg.p()).as_slice())?;
    text.push(b' ')?;
    text.extend_from_slice(put_point(&crease.seg.q()).as_slice())?;
    text.push(b'\n')?;
    Ok(())
}

/// The letter of a colour.
pub(super) fn letter(colour: Colour) -> u8
    ensures { result ≡ letter_of colour }
{
    match colour {
        Colour::M => b'M',
        Colour::V => b'V',
        Colour::A => b'A',
    }
}
