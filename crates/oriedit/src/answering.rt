//! The answers to the units of a script.
ghost use Rattle.std.specs.Prelude.{◌≡◌, ◌≤◌, ◌++◌, IsOk};
ghost use Rattle.oriedit.specs.Script.{works};
ghost use Rattle.oriedit.specs.Answering.{AnswersOne, AnswersUnits, RepliesTo, WritesWhereRose};
ghost use Rattle.oriedit.specs.Unfinished.{IsUnfinished};

use crate::early::Early;
use crate::unfinished::Unfinished;
use commands::{read_command, wanted_is_one, write_bad, write_reply};
use dialogue::Command;
use lines::split_line;
use ports::{Sink, Stop};
use projects::{Desk, Keeper};
use std::alloc::Global;

/// Answers the units that some bytes end, the first of which was begun before. What was begun of the
/// unit after them is kept.
pub(crate) fn answer_units<W: Sink, K: Keeper>(
    alloc: Global,
    desk: &mut Desk,
    keeper: &mut K,
    sink: &mut W,
    unit: &mut Unfinished,
    bytes: &[u8],
) -> Result<(), Early>
    requires { IsUnfinished unit.old.bytes.items unit.old.wanted }
    ensures units { AnswersUnits (unit.old.bytes.items ++ bytes.now) unit.new.bytes.items
        (works (W.held sink.old) (K.tables keeper.old) (K.faults keeper.old)) (K.is_clean keeper.new)
        (works (W.held sink.new) (K.tables keeper.new) (K.faults keeper.new)) result }
    ensures unfinished { IsOk result → IsUnfinished unit.new.bytes.items unit.new.wanted }
    ensures sink_cause { WritesWhereRose (W.faults sink.old) (W.faults sink.new) result }
    ensures keeper_faults { K.faults keeper.old ≤ K.faults keeper.new }
    ensures sink_aside { W.aside sink.new ≡ W.aside sink.old }
    ensures keeper_clean { K.is_clean keeper.new → K.is_clean keeper.old }
    ensures keeper_path { K.keeper_path keeper.new ≡ K.keeper_path keeper.old }
{
    let mut rest = bytes;
    while let Some((end, later)) = split_line(rest) {
        if unit.end_line(end)? {
            answer_unit(alloc, desk, keeper, sink, &unit.bytes)?;
            unit.bytes.clear();
        }
        rest = later;
    }
    unit.bytes.extend_from_slice(rest)?;
    wanted_is_one();
    Ok(())
}

/// Answers one unit of a script.
pub(crate) fn answer_unit<W: Sink, K: Keeper>(
    alloc: Global,
    desk: &mut Desk,
    keeper: &mut K,
    sink: &mut W,
    unit: &[u8],
) -> Result<(), Early>
    ensures one { AnswersOne unit.now
        (works (W.held sink.old) (K.tables keeper.old) (K.faults keeper.old)) (K.is_clean keeper.new)
        (works (W.held sink.new) (K.tables keeper.new) (K.faults keeper.new)) result }
    ensures sink_cause { WritesWhereRose (W.faults sink.old) (W.faults sink.new) result }
    ensures keeper_faults { K.faults keeper.old ≤ K.faults keeper.new }
    ensures sink_aside { W.aside sink.new ≡ W.aside sink.old }
    ensures keeper_clean { K.is_clean keeper.new → K.is_clean keeper.old }
    ensures keeper_path { K.keeper_path keeper.new ≡ K.keeper_path keeper.old }
{
    match read_command(alloc, unit) {
        Ok(None) => Ok(()),
        Ok(Some(command)) => answer_command(alloc, desk, keeper, sink, &command),
        Err(Stop::Why(bad)) => {
            write_bad(sink, &bad)?;
            Ok(())
        }
        Err(Stop::NoMemory) => Err(Early::NoMemory),
    }
}

/// Answers one command. No memory is taken after the command is done.
fn answer_command<W: Sink, K: Keeper>(
    alloc: Global,
    desk: &mut Desk,
    keeper: &mut K,
    sink: &mut W,
    command: &Command,
) -> Result<(), Early>
    ensures replies { RepliesTo command.now
        (works (W.held sink.old) (K.tables keeper.old) (K.faults keeper.old)) (K.is_clean keeper.new)
        (works (W.held sink.new) (K.tables keeper.new) (K.faults keeper.new)) result }
    ensures sink_cause { WritesWhereRose (W.faults sink.old) (W.faults sink.new) result }
    ensures keeper_faults { K.faults keeper.old ≤ K.faults keeper.new }
    ensures sink_aside { W.aside sink.new ≡ W.aside sink.old }
    ensures keeper_clean { K.is_clean keeper.new → K.is_clean keeper.old }
    ensures keeper_path { K.keeper_path keeper.new ≡ K.keeper_path keeper.old }
{
    let reply = desk.act(alloc, keeper, command)?;
    write_reply(sink, &reply)?;
    Ok(())
}
