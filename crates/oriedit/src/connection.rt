//! One connection: its request is read and answered.
ghost use Rattle.std.specs.Prelude.{◌≡◌, ◌≤◌};
ghost use Rattle.ports.specs.Streams.{HasCause};
ghost use Rattle.oriedit.specs.Connections.{end_side, kept, CommandDue, IsServed, PutsDue, TextDue};
ghost use Rattle.oriedit.specs.Connections.{served_as};

use crate::answers::{put_no_memory, put_refused, put_reply, put_wrong};
use api::{AskEnd, read_request};
use commands::read_command;
use dialogue::Command;
use ports::{Failed, NoMemory, Sink, Stop, Wire};
use projects::{Desk, Keeper};
use std::alloc::Global;

/// How the serving of a connection ends.
#[derive(Clone, Copy, Debug, PartialEq, Eq)]
pub enum Served {
    /// The answer was written.
    Answered,
    /// It gave no byte.
    Closed,
    /// Its bytes could not be read. Nothing was written or done.
    ReadFault,
    /// The answer could not be written. What was written is a front of it, and what it says was done.
    WriteFault,
}

/// Reads a request from a connection, does what it asks, and writes the answer. Where there is no
/// memory the answer says so, and nothing was changed.
pub fn answer_one<K: Keeper, E: Wire>(
    alloc: Global,
    desk: &mut Desk,
    keeper: &mut K,
    end: &mut E,
) -> Served
    ensures served { IsServed
        (end_side (E.left end.old) (E.Source.faults end.old) (E.held end.old) (E.Sink.faults end.old))
        (end_side (E.left end.new) (E.Source.faults end.new) (E.held end.new) (E.Sink.faults end.new))
        (kept (K.tables keeper.old) (K.faults keeper.old)) (K.is_clean keeper.new)
        (kept (K.tables keeper.new) (K.faults keeper.new)) result }
    ensures keeper_faults { K.faults keeper.old ≤ K.faults keeper.new }
    ensures keeper_clean { K.is_clean keeper.new → K.is_clean keeper.old }
    ensures keeper_path { K.keeper_path keeper.new ≡ K.keeper_path keeper.old }
{
    match read_request(alloc, end) {
        Ok(ask) => ended(answer_text(alloc, desk, keeper, end, ask.text.as_slice())),
        Err(Stop::Why(AskEnd::Bad(bad))) => ended(put_refused(end, &bad)),
        Err(Stop::Why(AskEnd::Closed)) => Served::Closed,
        Err(Stop::Why(AskEnd::Failed)) => Served::ReadFault,
        Err(Stop::NoMemory) => ended(put_no_memory(end)),
    }
}

/// How the serving of a connection ends with the writing of its answer.
fn ended(written: Result<(), Failed>) -> Served
    ensures { result ≡ served_as written }
{
    match written {
        Ok(()) => Served::Answered,
        Err(Failed) => Served::WriteFault,
    }
}

/// Does what a command text says, and writes the answer.
fn answer_text<K: Keeper, W: Sink>(
    alloc: Global,
    desk: &mut Desk,
    keeper: &mut K,
    sink: &mut W,
    text: &[u8],
) -> Result<(), Failed>
    ensures due { PutsDue (TextDue text.now)
        (kept (K.tables keeper.old) (K.faults keeper.old)) (K.is_clean keeper.new)
        (kept (K.tables keeper.new) (K.faults keeper.new)) (W.held sink.old) (W.held sink.new) result }
    ensures cause { HasCause (W.faults sink.old) (W.faults sink.new) result }
    ensures aside { W.aside sink.new ≡ W.aside sink.old }
    ensures keeper_faults { K.faults keeper.old ≤ K.faults keeper.new }
    ensures keeper_clean { K.is_clean keeper.new → K.is_clean keeper.old }
    ensures keeper_path { K.keeper_path keeper.new ≡ K.keeper_path keeper.old }
{
    match read_command(alloc, text) {
        Ok(Some(command)) => answer_command(alloc, desk, keeper, sink, &command),
        Err(Stop::Why(bad)) => put_wrong(sink, &bad),
        // A command text begins with a word of a command, so it is never read as none.
        Ok(None) | Err(Stop::NoMemory) => put_no_memory(sink),
    }
}

/// Does a command, and writes the answer. No memory is taken after the command is done.
fn answer_command<K: Keeper, W: Sink>(
    alloc: Global,
    desk: &mut Desk,
    keeper: &mut K,
    sink: &mut W,
    command: &Command,
) -> Result<(), Failed>
    ensures due { PutsDue (CommandDue command.now)
        (kept (K.tables keeper.old) (K.faults keeper.old)) (K.is_clean keeper.new)
        (kept (K.tables keeper.new) (K.faults keeper.new)) (W.held sink.old) (W.held sink.new) result }
    ensures cause { HasCause (W.faults sink.old) (W.faults sink.new) result }
    ensures aside { W.aside sink.new ≡ W.aside sink.old }
    ensures keeper_faults { K.faults keeper.old ≤ K.faults keeper.new }
    ensures keeper_clean { K.is_clean keeper.new → K.is_clean keeper.old }
    ensures keeper_path { K.keeper_path keeper.new ≡ K.keeper_path keeper.old }
{
    match desk.act(alloc, keeper, command) {
        Ok(reply) => put_reply(sink, command, &reply),
        Err(NoMemory) => put_no_memory(sink),
    }
}
