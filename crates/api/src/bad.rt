//! Refused requests.
ghost use Rattle.std.specs.Prelude.{◌≡◌};
ghost use Rattle.api.specs.Stages.{refusal};
ghost use Rattle.api.specs.Statuses.{status_of, bad_text as text_of};

use crate::ask::AskEnd;
use ports::Stop;

/// Why a request is refused. The tests go in this order, and the first that fails is named.
#[derive(Clone, Copy, Debug, PartialEq, Eq)]
pub enum BadWhy {
    /// The bytes cannot begin a head, or they end inside it.
    Head,
    /// 16,384 bytes hold no whole head, or it has more than 64 fields.
    HeadSize,
    /// There is a field Transfer-Encoding.
    Coding,
    /// A Content-Length is no digit string, or two of them differ.
    Length,
    /// The path is none of the table.
    Route,
    /// The path is of the table, with another method.
    Method,
    /// The name in the path is no name of a project.
    Name,
    /// POST without Content-Length.
    NoLength,
    /// The body has more than 4,194,304 bytes.
    BodySize,
    /// The bytes end before the whole body.
    Short,
    /// The body of an edit, or the query of a vertex, is not of its form.
    Body,
}

/// A refused request.
#[derive(Clone, Copy, Debug, PartialEq, Eq)]
pub struct HttpBad {
    /// The status of the answer (RFC 9110, section 15).
    pub status: u16,
    pub why: BadWhy,
    /// For `Method` the methods that the path has, as the field Allow tells them; else none.
    pub allow: Option<&'static str>,
}

impl BadWhy {
    /// The status of a request that is refused for this.
    pub fn status(self) -> u16
        ensures { result ≡ status_of self }
    {
        match self {
            BadWhy::Head | BadWhy::Length | BadWhy::Name | BadWhy::Short | BadWhy::Body => 400,
            BadWhy::HeadSize => 431,
            BadWhy::Coding => 501,
            BadWhy::Route => 404,
            BadWhy::Method => 405,
            BadWhy::NoLength => 411,
            BadWhy::BodySize => 413,
        }
    }
}

/// The end that refuses a request and tells no methods.
pub(crate) fn refused(why: BadWhy) -> Stop<AskEnd>
    ensures { result ≡ refusal why }
{
    Stop::Why(AskEnd::Bad(HttpBad {
        status: why.status(),
        why,
        allow: None,
    }))
}

/// The body of the answer to a refused request: `bad`, why, and a line feed.
pub fn bad_text(why: BadWhy) -> &'static str
    ensures { result.now ≡ text_of why }
{
    match why {
        BadWhy::Head => "bad head\n",
        BadWhy::HeadSize => "bad head-size\n",
        BadWhy::Coding => "bad coding\n",
        BadWhy::Length => "bad length\n",
        BadWhy::Route => "bad route\n",
        BadWhy::Method => "bad method\n",
        BadWhy::Name => "bad name\n",
        BadWhy::NoLength => "bad no-length\n",
        BadWhy::BodySize => "bad body-size\n",
        BadWhy::Short => "bad short\n",
        BadWhy::Body => "bad body\n",
    }
}
