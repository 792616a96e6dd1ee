//! Bytes taken from a source.
ghost use Rattle.std.specs.Prelude.{◌≡◌, ◌≤◌, ◌<◌, IsErrOf};
ghost use Rattle.ports.specs.declared.stop.Stop.TheVariants.{Why};
ghost use Rattle.ports.specs.Streams.{Rose};
ghost use Rattle.api.specs.declared.ask.AskEnd.TheVariants.{Failed};
ghost use Rattle.api.specs.Stages.{TakesMore};

use crate::ask::AskEnd;
use ports::{Source, Stop};

/// Takes up to so many bytes, puts them behind those that are there, and answers how many came. None
/// come only at the end of the source.
pub(crate) fn take_more<S: Source>(
    source: &mut S,
    bytes: &mut Vec<u8>,
    most: usize,
) -> Result<usize, Stop<AskEnd>>
    requires { 0 < most }
    ensures takes { TakesMore (S.left source.old) (S.left source.new) bytes.old.items bytes.new.items
        most result }
    ensures failed { IsErrOf result (Why AskEnd.Failed) → Rose (S.faults source.old) (S.faults source.new) }
    ensures later { S.faults source.old ≤ S.faults source.new }
    ensures aside { S.aside source.new ≡ S.aside source.old }
{
    let mut buf = [0u8; 4096];
    let room = most.min(4096);
    match source.take(&mut buf[..room]) {
        Err(_) => Err(Stop::Why(AskEnd::Failed)),
        Ok(count) => {
            bytes.extend_from_slice(&buf[..count])?;
            Ok(count)
        }
    }
}
