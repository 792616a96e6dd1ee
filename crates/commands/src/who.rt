//! The project of a change, and the rev that it has to have.
ghost use Rattle.std.specs.Prelude.{◌≡◌, ◌==◌, position};
ghost use Rattle.commands.specs.Fields.{AWho};
ghost use Rattle.commands.specs.Taking.{HasName, ReadsOption};

use crate::number::read_number;
use vocabulary::{LAST_REV, Name};

/// The project of a change, and the rev that it has to have, where one is given.
#[derive(Drop)]
pub(crate) struct Who {
    pub(crate) name: Name,
    pub(crate) rev: Option<u64>,
}

/// The project that the bytes spell, with `@` and a rev behind it where one is given.
pub(crate) fn read_who(bytes: &[u8]) -> Option<Who>
    ensures { ReadsOption AWho bytes.now result }
{
    match at_sign(bytes) {
        None => who_of(bytes, None),
        Some(at) => {
            let rev = read_number(&bytes[at + 1..], LAST_REV)?;
            who_of(&bytes[..at], Some(rev))
        }
    }
}

/// The project of this name.
fn who_of(name: &[u8], rev: Option<u64>) -> Option<Who>
    ensures { HasName name.now rev result }
{
    let name = Name::new(name).ok()?;
    Some(Who { name, rev })
}

/// The place of the first `@`.
fn at_sign(bytes: &[u8]) -> Option<usize>
    ensures { result ≡ position (λ b. b == 64) bytes.now }
{
    bytes.iter().position(|byte| *byte == b'@')
}
