//! Bytes in pieces: a sign, digits, a point with digits, and the rest.
ghost use Rattle.std.specs.Prelude.{◌≤◌, length, take, drop};
ghost use Rattle.qroot2.specs.Digits.{AllDigits};
ghost use Rattle.decimals.specs.Cutting.{IsUnsigned, IsRun, IsFraction, IsCut, EndsRun};

/// The pieces of bytes: whether a minus comes first, the digits behind the sign, the digits behind a
/// point that follows, and the rest.
#[derive(Clone, Copy)]
pub(crate) struct Cut<'a> {
    pub minus: bool,
    pub before: &'a [u8],
    pub behind: &'a [u8],
    pub tail: &'a [u8],
}

/// Cuts bytes into pieces.
pub(crate) fn pieces_of(bytes: &[u8]) -> Cut<'_>
    ensures { IsCut bytes.now (record {
      minus = result.minus;
      before = result.before.now;
      behind = result.behind.now;
      tail = result.tail.now;
    }) }
{
    let (minus, plain) = unsigned(bytes);
    let (before, rest) = run(plain);
    let (behind, tail) = fraction(rest);
    Cut {
        minus,
        before,
        behind,
        tail,
    }
}

/// Whether bytes begin with a minus, and what stands behind their sign.
pub(crate) fn unsigned(bytes: &[u8]) -> (bool, &[u8])
    ensures { IsUnsigned bytes.now result.0 result.1.now }
{
    match bytes {
        [b'-', plain @ ..] => (true, plain),
        [b'+', plain @ ..] => (false, plain),
        _ => (false, bytes),
    }
}

/// The digits at the front, and what stands behind them.
pub(crate) fn run(bytes: &[u8]) -> (&[u8], &[u8])
    ensures { IsRun bytes.now result.0.now result.1.now }
{
    let end = run_len(bytes);
    (&bytes[..end], &bytes[end..])
}

/// How many digits stand at the front.
fn run_len(bytes: &[u8]) -> usize
    ensures within { result ≤ length bytes.now }
    ensures digits { AllDigits (take result bytes.now) }
    ensures ends { EndsRun (drop result bytes.now) }
{
    for (i, byte) in bytes.iter().enumerate() {
        if *byte < b'0' || *byte > b'9' {
            return i;
        }
    }
    bytes.len()
}

/// The digits behind a point at the front, and what stands behind them.
fn fraction(bytes: &[u8]) -> (&[u8], &[u8])
    ensures { IsFraction bytes.now result.0.now result.1.now }
{
    match bytes {
        [b'.', after @ ..] => run(after),
        _ => (&[], bytes),
    }
}
