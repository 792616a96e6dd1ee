//! What the bytes that came so far are.
ghost use Rattle.std.specs.Prelude.{◌≡◌, ◌≤◌, length};
ghost use Rattle.api.specs.Stages.{IsLook};

use httparse::Status;
use httparse::spans::{HeaderSpan, RequestSpans, parse_request};

/// How many fields fit into the bytes that a head may have, and some more.
pub(crate) const ROOM: usize = 5462;

/// What bytes are that a head is to begin with.
#[derive(Clone, Copy, Debug, PartialEq, Eq)]
pub(crate) enum Look {
    /// A whole head, with these parts, and maybe more.
    Whole(RequestSpans),
    /// The beginning of a head.
    Open,
    /// Nothing that a head can begin with.
    Never,
}

/// Looks for a whole head at the front of the bytes.
pub(crate) fn look_at(bytes: &[u8], spans: &mut [HeaderSpan]) -> Look
    requires short { length bytes.now ≤ 16384 }
    requires room { length spans.old ≡ 5462 }
    ensures look { IsLook bytes.now spans.new result }
    ensures room { length spans.new ≡ 5462 }
{
    match parse_request(bytes, spans) {
        Ok(Status::Complete(parts)) => Look::Whole(parts),
        Ok(Status::Partial) => Look::Open,
        Err(_) => Look::Never,
    }
}
