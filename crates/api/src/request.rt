//! Requests, read from a source.
ghost use Rattle.std.specs.Prelude.{◌≡◌, ◌≤◌, Contains, IsErrOf, length};
ghost use Rattle.routes.specs.Methods.{methods};
ghost use Rattle.ports.specs.declared.stop.Stop.TheVariants.{Why};
ghost use Rattle.ports.specs.Streams.{Rose};
ghost use Rattle.api.specs.declared.ask.AskEnd.TheVariants.{Failed};
ghost use Rattle.api.specs.Answers.{Reads};
ghost use Rattle.api.specs.Stages.{IsHead};
ghost use Rattle.api.specs.Plans.{AsksBy, ReadsOn};

use crate::ask::{Ask, AskEnd};
use crate::bad::{BadWhy, refused};
use crate::body::read_body;
use crate::head::read_head;
use crate::look::ROOM;
use crate::plan::{Plan, head_of, planned};
use httparse::spans::{EMPTY_HEADER_SPAN, HeaderSpan, RequestSpans};
use ports::{Listed, Source, Stop};
use routes::command_text;
use std::alloc::Global;

/// Reads a request and answers the text of the command that it asks for. The answer is the one to all
/// bytes of the source, whatever pieces they come in; only those are taken that it needs, and maybe
/// some behind them.
///
/// # Errors
///
/// `Failed` only where a take failed, `Closed` exactly where the source has no byte, `Bad` exactly
/// where a test of `BadWhy` fails, the first in their order; `NoMemory` where there was none.
pub fn read_request<S: Source>(alloc: Global, source: &mut S) -> Result<Ask, Stop<AskEnd>>
    ensures reads { Reads (S.left source.old) (S.left source.new) result }
    ensures failed { IsErrOf result (Why AskEnd.Failed) → Rose (S.faults source.old) (S.faults source.new) }
    ensures later { S.faults source.old ≤ S.faults source.new }
    ensures aside { S.aside source.new ≡ S.aside source.old }
{
    let mut bytes = Vec::new(alloc);
    let mut spans = vec![in alloc; EMPTY_HEADER_SPAN; ROOM]?;
    let parts = read_head(source, &mut bytes, spans.as_mut_slice())?;
    read_rest(alloc, source, bytes.as_slice(), spans.as_slice(), parts)
}

/// Reads a request of which the head is there.
fn read_rest<S: Source>(
    alloc: Global,
    source: &mut S,
    bytes: &[u8],
    spans: &[HeaderSpan],
    parts: RequestSpans,
) -> Result<Ask, Stop<AskEnd>>
    requires head { IsHead bytes.now spans.now parts }
    requires short { length bytes.now ≤ 16384 }
    ensures reads { ReadsOn bytes.now (S.left source.old) (S.left source.new) result }
    ensures failed { IsErrOf result (Why AskEnd.Failed) → Rose (S.faults source.old) (S.faults source.new) }
    ensures later { S.faults source.old ≤ S.faults source.new }
    ensures aside { S.aside source.new ≡ S.aside source.old }
{
    let head = match head_of(bytes, spans, parts) {
        Ok(head) => head,
        Err(why) => return Err(refused(why)),
    };
    let plan = planned(alloc, &head)?;
    let body = read_body(alloc, source, &bytes[parts.len..], plan.length)?;
    asked(alloc, &plan, body.as_slice())
}

/// What a plan asks for with this body.
fn asked(alloc: Global, plan: &Plan, body: &[u8]) -> Result<Ask, Stop<AskEnd>>
    requires { Contains (methods plan.now.route) plan.now.method }
    ensures { AsksBy plan.now body.now result }
{
    match command_text(alloc, &plan.route, plan.method, plan.query.as_bytes(), body)? {
        Some(text) => Ok(Ask {
            text: Listed::new(text),
        }),
        None => Err(refused(BadWhy::Body)),
    }
}
