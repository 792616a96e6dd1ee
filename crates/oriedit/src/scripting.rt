//! Scripts: commands, one after another, each answered before the next is read.
ghost use Rattle.std.specs.Prelude.{◌≡◌, ◌+◌, ◌≤◌};
ghost use Rattle.ports.specs.Streams.{Rose};
ghost use Rattle.oriedit.specs.Script.{works, ScriptRuns};
ghost use Rattle.oriedit.specs.Lasting.{AnswersLast};

use crate::Status;
use crate::answering::{answer_unit, answer_units};
use crate::unfinished::Unfinished;
use ports::{Sink, Source};
use projects::{Desk, Keeper};
use std::alloc::Global;

/// The input of a script has fewer bytes than this, 2^28.
const LIMIT: usize = 268_435_456;

/// Reads commands, each a line, an import with the lines that it wants, and writes the reply to each
/// before it reads the next. A blank line and a comment have no reply; a text that is no command is
/// answered by what is wrong with it, and the script goes on, as it does after a refusal and after a
/// failure of the keeper. The input has fewer than 2^28 bytes. At a read fault, and where the input is
/// too long, the unfinished command is not done.
pub fn script<S: Source, W: Sink, K: Keeper>(
    alloc: Global,
    source: &mut S,
    sink: &mut W,
    keeper: &mut K,
) -> Status
    ensures script { ScriptRuns (S.left source.old) (S.left source.new)
        (works (W.held sink.old) (K.tables keeper.old) (K.faults keeper.old)) (K.is_clean keeper.new)
        (works (W.held sink.new) (K.tables keeper.new) (K.faults keeper.new)) result }
    ensures read_fault { result ≡ Status.ReadFault → Rose (S.faults source.old) (S.faults source.new) }
    ensures write_fault { result ≡ Status.WriteFault → Rose (W.faults sink.old) (W.faults sink.new) }
    ensures source_faults { S.faults source.old ≤ S.faults source.new }
    ensures one_failed_take { S.faults source.new ≤ S.faults source.old + 1 }
    ensures sink_faults { W.faults sink.old ≤ W.faults sink.new }
    ensures keeper_faults { K.faults keeper.old ≤ K.faults keeper.new }
    ensures source_aside { S.aside source.new ≡ S.aside source.old }
    ensures sink_aside { W.aside sink.new ≡ W.aside sink.old }
    ensures keeper_clean { K.is_clean keeper.new → K.is_clean keeper.old }
    ensures keeper_path { K.keeper_path keeper.new ≡ K.keeper_path keeper.old }
{
    let Ok(mut desk) = Desk::new(alloc) else {
        return Status::NoMemory;
    };
    let mut unit = Unfinished::new(alloc);
    let mut taken = 0;
    let mut block = [0u8; 4096];
    while taken < LIMIT {
        let room = (LIMIT - taken).min(4096);
        match source.take(&mut block[..room]) {
            Err(_) => return Status::ReadFault,
            Ok(0) => return answer_last(alloc, &mut desk, keeper, sink, &unit.bytes),
            Ok(count) => {
                taken += count;
                let piece = &block[..count];
                if let Err(early) = answer_units(alloc, &mut desk, keeper, sink, &mut unit, piece) {
                    return early.status();
                }
            }
        }
    }
    Status::TooLong
}

/// Answers the last unit of a script, if there is one that is not whole.
fn answer_last<W: Sink, K: Keeper>(
    alloc: Global,
    desk: &mut Desk,
    keeper: &mut K,
    sink: &mut W,
    unit: &[u8],
) -> Status
    ensures last { AnswersLast unit.now
        (works (W.held sink.old) (K.tables keeper.old) (K.faults keeper.old)) (K.is_clean keeper.new)
        (works (W.held sink.new) (K.tables keeper.new) (K.faults keeper.new)) result }
    ensures write_fault { result ≡ Status.WriteFault → Rose (W.faults sink.old) (W.faults sink.new) }
    ensures sink_faults { W.faults sink.old ≤ W.faults sink.new }
    ensures keeper_faults { K.faults keeper.old ≤ K.faults keeper.new }
    ensures sink_aside { W.aside sink.new ≡ W.aside sink.old }
    ensures keeper_clean { K.is_clean keeper.new → K.is_clean keeper.old }
    ensures keeper_path { K.keeper_path keeper.new ≡ K.keeper_path keeper.old }
{
    if unit.is_empty() {
        return Status::Ok;
    }
    match answer_unit(alloc, desk, keeper, sink, unit) {
        Ok(()) => Status::Ok,
        Err(early) => early.status(),
    }
}
