//! The text that is due for a whole input, and the status that it comes with.
ghost use Rattle.std.specs.Prelude.{◌≡◌, ◌≤◌, ◌⊎◌};
ghost use Rattle.ports.specs.Streams.{HasCause, Puts, Rose};
ghost use Rattle.oriedit.specs.Dues.{text_of};
ghost use Rattle.oriedit.specs.Run.{WritesDue};

use crate::Status;
use commands::write_reply;
use dialogue::{Cause, Reply};
use ports::{Failed, Sink};

/// A text: that of a reply, or a line.
#[derive(Drop)]
pub(crate) enum Text {
    Reply(Reply),
    Line(Vec<u8>),
}

/// The text that is due, and the status once it is written.
#[derive(Drop)]
pub(crate) struct Due {
    pub(crate) text: Text,
    pub(crate) status: Status,
}

impl Due {
    /// A refusal.
    pub(crate) fn refused(cause: Cause) -> Due
        ensures status { result.status ≡ Status.Refused }
        ensures text { result.text ≡ Text.Reply (Reply.Refused cause) }
    {
        Due {
            text: Text::Reply(Reply::Refused(cause)),
            status: Status::Refused,
        }
    }
}

/// The status that is due, or a write fault where the text could not be written.
pub(crate) fn written<W: Sink>(sink: &mut W, due: &Due) -> Status
    ensures bytes { WritesDue (W.held sink.old) (W.held sink.new)
        (text_of due.now.text) due.now.status result }
    ensures fault { result ≡ due.now.status
        ⊎ ((result ≡ Status.WriteFault) × Rose (W.faults sink.old) (W.faults sink.new)) }
    ensures later { W.faults sink.old ≤ W.faults sink.new }
    ensures aside { W.aside sink.new ≡ W.aside sink.old }
{
    match put_text(sink, &due.text) {
        Ok(()) => due.status,
        Err(_) => Status::WriteFault,
    }
}

/// Writes a text.
fn put_text<W: Sink>(sink: &mut W, text: &Text) -> Result<(), Failed>
    ensures bytes { Puts (W.held sink.old) (W.held sink.new) (text_of text.now) result }
    ensures cause { HasCause (W.faults sink.old) (W.faults sink.new) result }
    ensures aside { W.aside sink.new ≡ W.aside sink.old }
{
    match text {
        Text::Reply(reply) => write_reply(sink, reply),
        Text::Line(line) => sink.put(line),
    }
}
