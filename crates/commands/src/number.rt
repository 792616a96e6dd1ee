//! Digit strings.
ghost use Rattle.std.specs.Prelude.{◌≤◌, decimal};
ghost use Rattle.commands.specs.Fields.{Spells, ADirection, ANumber, ALength};
ghost use Rattle.commands.specs.Taking.{ReadsOption};

use qroot2::Dir;

/// The number up to `most` that the bytes spell: a digit string with no leading zero but `0` itself.
pub(crate) fn read_number(bytes: &[u8], most: u64) -> Option<u64>
    ensures { ReadsOption (Spells (λ n. n ≤ most) decimal) bytes.now result }
{
    vocabulary::read_number(bytes, most)
}

/// The direction that the bytes spell by its number, from 0 to 15.
pub(crate) fn read_direction(bytes: &[u8]) -> Option<Dir>
    ensures { ReadsOption ADirection bytes.now result }
{
    Dir::new(read_number(bytes, 15)? as u8)
}

/// The whole number from `low` to `most` that the bytes spell.
pub(crate) fn read_within(bytes: &[u8], low: u32, most: u32) -> Option<u32>
    ensures { ReadsOption (ANumber low most) bytes.now result }
{
    let number = read_number(bytes, u64::from(most))?;
    if number >= u64::from(low) {
        Some(number as u32)
    } else {
        None
    }
}

/// The width or the height that the bytes spell, from 1 to 8.
pub(crate) fn read_length(bytes: &[u8]) -> Option<u8>
    ensures { ReadsOption ALength bytes.now result }
{
    Some(read_within(bytes, 1, 8)? as u8)
}
