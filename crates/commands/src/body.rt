//! Replies without the line that says how many lines a text has.
ghost use Rattle.std.specs.Prelude.{◌≡◌, length};
ghost use Rattle.ports.specs.Streams.{HasCause, Puts};
ghost use Rattle.commands.specs.ReplyText.{body_text};

use crate::{reply_len, write_reply};
use dialogue::Reply;
use ports::{Failed, Sink};

/// Writes a reply, but of a text the text alone, without the line that says how many lines it has. It
/// takes no memory.
///
/// # Errors
///
/// `Failed` where the sink fails. Then a part of the reply from its front may have been written.
pub fn write_body<W: Sink>(sink: &mut W, reply: &Reply) -> Result<(), Failed>
    ensures bytes { Puts (W.held sink.old) (W.held sink.new) (body_text reply.now) result }
    ensures cause { HasCause (W.faults sink.old) (W.faults sink.new) result }
    ensures aside { W.aside sink.new ≡ W.aside sink.old }
{
    match reply {
        Reply::Text(text) => sink.put(text.as_slice()),
        _ => write_reply(sink, reply),
    }
}

/// How many bytes [`write_body`] writes for a reply. It takes no memory.
pub fn body_len(reply: &Reply) -> u128
    ensures { result ≡ length (body_text reply.now) }
{
    match reply {
        Reply::Text(text) => text.as_slice().len() as u128,
        _ => reply_len(reply),
    }
}
