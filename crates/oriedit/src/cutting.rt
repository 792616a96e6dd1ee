//! What `cut` writes for its input, and what other words write.
ghost use Rattle.std.specs.Prelude.{◌≡◌, ◌≤◌, IfOk};
ghost use Rattle.ports.specs.Streams.{Rose};
ghost use Rattle.words.specs.Words.{usage_text};
ghost use Rattle.oriedit.specs.CutText.{CutText, PatternText};
ghost use Rattle.oriedit.specs.Dues.{text_of};
ghost use Rattle.oriedit.specs.Run.{Answers, WritesDue};

use crate::Status;
use crate::due::{Due, Text, written};
use crate::reply::bad_line;
use dialogue::{Cause, Reply};
use pattern::{Pattern, read_pattern};
use ports::{NoMemory, Sink, Stop};
use std::alloc::Global;
use subdivide::scratch;

const USAGE: &[u8] =
    b"usage: oriedit cut\n       oriedit check [--d N] [--k N] [--tol N] [--w N] [--h N]\n       \
        oriedit script [--keep PATH]\n       oriedit generate SEED COUNT\n       \
        oriedit serve PORT [--connections N] [--keep PATH]\nnumbers are plain decimal digits\n";

/// Writes the usage text.
pub fn usage<W: Sink>(sink: &mut W) -> Status
    ensures bytes { WritesDue (W.held sink.old) (W.held sink.new) usage_text Status.Usage result }
    ensures fault { result ≡ Status.WriteFault → Rose (W.faults sink.old) (W.faults sink.new) }
    ensures later { W.faults sink.old ≤ W.faults sink.new }
    ensures aside { W.aside sink.new ≡ W.aside sink.old }
{
    match sink.put(USAGE) {
        Ok(()) => Status::Usage,
        Err(_) => Status::WriteFault,
    }
}

/// Writes what is due for the whole input of `cut`.
pub fn cut<W: Sink>(alloc: Global, bytes: &[u8], sink: &mut W) -> Status
    ensures bytes { Answers CutText bytes.now (W.held sink.old) (W.held sink.new) result }
    ensures fault { result ≡ Status.WriteFault → Rose (W.faults sink.old) (W.faults sink.new) }
    ensures later { W.faults sink.old ≤ W.faults sink.new }
    ensures aside { W.aside sink.new ≡ W.aside sink.old }
{
    match due_for(alloc, bytes) {
        Ok(due) => written(sink, &due),
        Err(NoMemory) => Status::NoMemory,
    }
}

/// What is due for these bytes.
fn due_for(alloc: Global, bytes: &[u8]) -> Result<Due, NoMemory>
    ensures { IfOk result (λ due. CutText bytes.now due.status (text_of due.text)) }
{
    match read_pattern(alloc, bytes) {
        Ok(pattern) => due_of_pattern(alloc, &pattern),
        Err(Stop::Why(bad)) => Ok(Due {
            text: Text::Line(bad_line(alloc, &bad)?),
            status: Status::Refused,
        }),
        Err(Stop::NoMemory) => Err(NoMemory),
    }
}

/// What is due for a pattern.
fn due_of_pattern(alloc: Global, pattern: &Pattern) -> Result<Due, NoMemory>
    ensures { IfOk result (λ due. PatternText pattern.now due.status (text_of due.text)) }
{
    match scratch(alloc, pattern) {
        Ok(subdivision) => Ok(Due {
            text: Text::Reply(Reply::Shown {
                rev: 0,
                subdivision,
            }),
            status: Status::Ok,
        }),
        Err(Stop::Why(bad)) => Ok(Due::refused(Cause::Cut(bad))),
        Err(Stop::NoMemory) => Err(NoMemory),
    }
}
