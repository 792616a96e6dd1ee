//! Bytes that go to a sink in blocks.
ghost use Rattle.std.specs.Prelude.{◌≡◌};
ghost use Rattle.ports.specs.Streams.{HasCause};
ghost use Rattle.commands.specs.Blocks.{Adds, joined};

use arrayvec::ArrayVec;
use ports::{Failed, Sink};

/// Bytes that are to go to a sink.
pub(crate) type Block = ArrayVec<u8, 4096>;

/// Adds a piece. Where it does not fit behind the others they go to the sink first.
pub(crate) fn add<W: Sink>(sink: &mut W, block: &mut Block, piece: &[u8]) -> Result<(), Failed>
    ensures bytes { Adds (W.held sink.old) block.old.items (W.held sink.new) block.new.items
        piece.now result }
    ensures cause { HasCause (W.faults sink.old) (W.faults sink.new) result }
    ensures aside { W.aside sink.new ≡ W.aside sink.old }
{
    if block.try_extend_from_slice(piece).is_ok() {
        return Ok(());
    }
    sink.put(block.as_slice())?;
    block.clear();
    if block.try_extend_from_slice(piece).is_ok() {
        return Ok(());
    }
    sink.put(piece)
}

/// Adds pieces, one after another.
pub(crate) fn add_all<W: Sink>(
    sink: &mut W,
    block: &mut Block,
    pieces: &[&[u8]],
) -> Result<(), Failed>
    ensures bytes { Adds (W.held sink.old) block.old.items (W.held sink.new) block.new.items
        (joined pieces.now) result }
    ensures cause { HasCause (W.faults sink.old) (W.faults sink.new) result }
    ensures aside { W.aside sink.new ≡ W.aside sink.old }
{
    for piece in pieces {
        add(sink, block, piece)?;
    }
    Ok(())
}
