//! What is written to a connection: a head and a body.
ghost use Rattle.std.specs.Prelude.{◌≡◌, option_map};
ghost use Rattle.ports.specs.Streams.{HasCause, Puts};
ghost use Rattle.oriedit.specs.HttpAnswers.{answer_text, bad_answer, no_memory_answer, reply_answer};
ghost use Rattle.oriedit.specs.HttpAnswers.{wrong_answer};

use crate::statuses::{holds_json, status_of};
use api::{HttpBad, bad_text, write_head};
use commands::{BadText, bad_len, body_len, write_bad, write_body};
use dialogue::{Command, Reply};
use ports::{Failed, Sink};

/// Writes the answer with the reply to a command. It takes no memory.
pub(crate) fn put_reply<W: Sink>(
    sink: &mut W,
    command: &Command,
    reply: &Reply,
) -> Result<(), Failed>
    ensures bytes { Puts (W.held sink.old) (W.held sink.new)
        (answer_text (reply_answer command.now reply.now)) result }
    ensures cause { HasCause (W.faults sink.old) (W.faults sink.new) result }
    ensures aside { W.aside sink.new ≡ W.aside sink.old }
{
    let status = status_of(command, reply);
    write_head(
        sink,
        status,
        holds_json(command, reply),
        body_len(reply),
        None,
    )?;
    write_body(sink, reply)
}

/// Writes the answer to a text that is no command. It takes no memory.
#[tactic(auto, using(api::proofs::Callers::is_400))]
pub(crate) fn put_wrong<W: Sink>(sink: &mut W, bad: &BadText) -> Result<(), Failed>
    ensures bytes { Puts (W.held sink.old) (W.held sink.new) (answer_text (wrong_answer bad.now)) result }
    ensures cause { HasCause (W.faults sink.old) (W.faults sink.new) result }
    ensures aside { W.aside sink.new ≡ W.aside sink.old }
{
    write_head(sink, 400, false, bad_len(bad), None)?;
    write_bad(sink, bad)
}

/// Writes the answer to a refused request. It takes no memory.
pub(crate) fn put_refused<W: Sink>(sink: &mut W, bad: &HttpBad) -> Result<(), Failed>
    ensures bytes { Puts (W.held sink.old) (W.held sink.new)
        (answer_text (bad_answer bad.now.why (option_map (λ methods. methods.now) bad.now.allow))) result }
    ensures cause { HasCause (W.faults sink.old) (W.faults sink.new) result }
    ensures aside { W.aside sink.new ≡ W.aside sink.old }
{
    let body = bad_text(bad.why);
    write_head(sink, bad.why.status(), false, body.len() as u128, bad.allow)?;
    sink.put(body.as_bytes())
}

/// Writes that there is no memory. It takes none.
#[tactic(auto, using(api::proofs::Callers::is_507))]
pub(crate) fn put_no_memory<W: Sink>(sink: &mut W) -> Result<(), Failed>
    ensures bytes { Puts (W.held sink.old) (W.held sink.new) (answer_text no_memory_answer) result }
    ensures cause { HasCause (W.faults sink.old) (W.faults sink.new) result }
    ensures aside { W.aside sink.new ≡ W.aside sink.old }
{
    write_head(sink, 507, false, 10, None)?;
    sink.put(b"no-memory\n")
}
