//! The head of a request, taken from a source.
ghost use Rattle.std.specs.Prelude.{◌≡◌, ◌≤◌, [], IsErrOf, length};
ghost use Rattle.ports.specs.declared.stop.Stop.TheVariants.{Why};
ghost use Rattle.ports.specs.Streams.{Rose};
ghost use Rattle.api.specs.declared.ask.AskEnd.TheVariants.{Failed};
ghost use Rattle.api.specs.Stages.{ReadsHead, cut_off as cut_off_at};

use crate::ask::AskEnd;
use crate::bad::{BadWhy, refused};
use crate::look::{Look, look_at};
use crate::taking::take_more;
use httparse::spans::{HeaderSpan, RequestSpans};
use ports::{Source, Stop};

/// A head has at most so many bytes.
const HEAD_LIMIT: usize = 16_384;

/// Takes bytes until a whole head is there.
pub(crate) fn read_head<S: Source>(
    source: &mut S,
    bytes: &mut Vec<u8>,
    spans: &mut [HeaderSpan],
) -> Result<RequestSpans, Stop<AskEnd>>
    requires empty { bytes.old.items ≡ [] }
    requires room { length spans.old ≡ 5462 }
    ensures reads { ReadsHead (S.left source.old) (S.left source.new) bytes.new.items spans.new result }
    ensures failed { IsErrOf result (Why AskEnd.Failed) → Rose (S.faults source.old) (S.faults source.new) }
    ensures later { S.faults source.old ≤ S.faults source.new }
    ensures aside { S.aside source.new ≡ S.aside source.old }
{
    while bytes.len() < HEAD_LIMIT {
        let most = HEAD_LIMIT - bytes.len();
        let count = take_more(source, bytes, most)?;
        if count == 0 {
            return Err(cut_off(bytes.as_slice()));
        }
        match look_at(bytes.as_slice(), spans) {
            Look::Whole(parts) => return Ok(parts),
            Look::Never => return Err(refused(BadWhy::Head)),
            Look::Open => {}
        }
    }
    Err(refused(BadWhy::HeadSize))
}

/// How a source ends that gave these bytes, which hold no whole head.
fn cut_off(bytes: &[u8]) -> Stop<AskEnd>
    ensures { result ≡ cut_off_at bytes.now }
{
    if bytes.is_empty() {
        Stop::Why(AskEnd::Closed)
    } else {
        refused(BadWhy::Head)
    }
}
