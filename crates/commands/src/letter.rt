//! Colours and marks.
ghost use Rattle.commands.specs.Fields.{AColour, AMark};
ghost use Rattle.commands.specs.Taking.{ReadsOption};

use sheet::{Colour, Mark};

/// The colour of which the bytes are the letter.
pub(crate) fn read_colour(bytes: &[u8]) -> Option<Colour>
    ensures { ReadsOption AColour bytes.now result }
{
    match bytes {
        b"M" => Some(Colour::M),
        b"V" => Some(Colour::V),
        b"A" => Some(Colour::A),
        _ => None,
    }
}

/// The mark of which the bytes are the letter.
pub(crate) fn read_mark(bytes: &[u8]) -> Option<Mark>
    ensures { ReadsOption AMark bytes.now result }
{
    match bytes {
        b"M" => Some(Mark::M),
        b"V" => Some(Mark::V),
        _ => None,
    }
}
