//! The body of a request, taken from a source.
ghost use Rattle.std.specs.Prelude.{◌≡◌, ◌≤◌, IsErrOf};
ghost use Rattle.ports.specs.declared.stop.Stop.TheVariants.{Why};
ghost use Rattle.ports.specs.Streams.{Rose};
ghost use Rattle.api.specs.declared.ask.AskEnd.TheVariants.{Failed};
ghost use Rattle.api.specs.Stages.{ReadsBody};

use crate::ask::AskEnd;
use crate::bad::{BadWhy, refused};
use crate::taking::take_more;
use ports::{Listed, Source, Stop};
use std::alloc::Global;

/// So many of the bytes behind the head, of which these are there and the others are taken.
pub(crate) fn read_body<S: Source>(
    alloc: Global,
    source: &mut S,
    behind: &[u8],
    length: usize,
) -> Result<Listed<u8>, Stop<AskEnd>>
    ensures reads { ReadsBody (S.left source.old) (S.left source.new) behind.now length result }
    ensures failed { IsErrOf result (Why AskEnd.Failed) → Rose (S.faults source.old) (S.faults source.new) }
    ensures later { S.faults source.old ≤ S.faults source.new }
    ensures aside { S.aside source.new ≡ S.aside source.old }
{
    let there = behind.len().min(length);
    let mut body = Vec::from_slice(alloc, &behind[..there])?;
    while body.len() < length {
        let most = length - body.len();
        let count = take_more(source, &mut body, most)?;
        if count == 0 {
            return Err(refused(BadWhy::Short));
        }
    }
    Ok(Listed::new(body))
}
