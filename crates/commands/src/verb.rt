//! The first word of a command.
ghost use Rattle.commands.specs.Fields.{AVerb};
ghost use Rattle.commands.specs.Taking.{ReadsOption};

use vocabulary::Verb;

/// The verb that the bytes spell.
pub(crate) fn read_verb(bytes: &[u8]) -> Option<Verb>
    ensures { ReadsOption AVerb bytes.now result }
{
    Verb::read(bytes)
}
