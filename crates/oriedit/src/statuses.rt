//! The status of an answer by HTTP, and whether its body is JSON.
ghost use Rattle.std.specs.Prelude.{◌≡◌};
ghost use Rattle.oriedit.specs.HttpAnswers.{cause_status, done_status, is_json, reply_status};

use dialogue::{Cause, Command, Reply};

/// The status of the reply to a command.
pub(crate) fn status_of(command: &Command, reply: &Reply) -> u16
    ensures { result ≡ reply_status command.now reply.now }
{
    match reply {
        Reply::Done { rev: _ } => status_of_done(command),
        Reply::Refused(cause) => status_of_cause(cause),
        Reply::KeeperFailed => 503,
        _ => 200,
    }
}

/// The status where a command is done.
fn status_of_done(command: &Command) -> u16
    ensures { result ≡ done_status command.now }
{
    match command {
        Command::New { name: _, sheet: _ } => 201,
        _ => 200,
    }
}

/// The status of a refusal.
fn status_of_cause(cause: &Cause) -> u16
    ensures { result ≡ cause_status cause.now }
{
    match cause {
        Cause::NoProject | Cause::NoVertex => 404,
        Cause::Exists | Cause::Stale { rev: _ } => 409,
        _ => 422,
    }
}

/// Whether the reply to a command is JSON: the text of `fold` is.
pub(crate) fn holds_json(command: &Command, reply: &Reply) -> bool
    ensures { result ≡ is_json command.now reply.now }
{
    matches!(reply, Reply::Text(_)) && matches!(command, Command::FoldText { name: _ })
}
