//! How the reading of a request ends.
use crate::bad::HttpBad;
use ports::Listed;

/// What a request asks for: the text of a command.
#[derive(Drop)]
pub struct Ask {
    pub text: Listed<u8>,
}

/// Why a connection asks for nothing.
#[derive(Clone, Copy, Debug, PartialEq, Eq)]
pub enum AskEnd {
    /// A take failed.
    Failed,
    /// The source ended before its first byte.
    Closed,
    /// The bytes are refused.
    Bad(HttpBad),
}
