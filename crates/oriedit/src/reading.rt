//! The whole input, up to a limit of bytes.
ghost use Rattle.std.specs.Prelude.{◌≡◌, ◌+◌, ◌≤◌, ◌<◌, IsErrOf};
ghost use Rattle.ports.specs.Streams.{Rose};
ghost use Rattle.oriedit.specs.Reading.{ReadsAll};

use ports::Source;
use std::alloc::Global;

/// Why not all was read.
#[derive(Clone, Copy, Debug, PartialEq, Eq)]
pub enum ReadEnd {
    /// A take failed.
    Failed,
    /// The limit was taken before the end was seen.
    TooLong,
    /// There was no memory for what was taken.
    NoMemory,
}

/// All bytes of a source that has fewer than the limit.
pub fn read_all<S: Source>(alloc: Global, source: &mut S, limit: usize) -> Result<Vec<u8>, ReadEnd>
    ensures bytes { ReadsAll (λ v. v.items) limit (S.left source.old) (S.left source.new) result }
    ensures failed { IsErrOf result ReadEnd.Failed → Rose (S.faults source.old) (S.faults source.new) }
    ensures later { S.faults source.old ≤ S.faults source.new }
    ensures once { S.faults source.new ≤ S.faults source.old + 1 }
    ensures aside { S.aside source.new ≡ S.aside source.old }
{
    let mut bytes = Vec::new(alloc);
    let mut buf = [0u8; 4096];
    while bytes.len() < limit {
        let room = (limit - bytes.len()).min(4096);
        match source.take(&mut buf[..room]) {
            Err(_) => return Err(ReadEnd::Failed),
            Ok(0) => return Ok(bytes),
            Ok(count) => {
                if bytes.extend_from_slice(&buf[..count]).is_err() {
                    return Err(ReadEnd::NoMemory);
                }
            }
        }
    }
    Err(ReadEnd::TooLong)
}
