//! The lines of a text.
ghost use Rattle.std.specs.Prelude.{Contains, IfSome, IsNone};
ghost use Rattle.lines.specs.Lines.{IsBare, IsFirst, IsFirstLine};

/// The first line, with its line feed, and what stands behind it; `None` where no line feed is there.
pub fn split_line(bytes: &[u8]) -> Option<(&[u8], &[u8])>
    ensures some { IfSome result (λ cut. IsFirst bytes.now cut.0.now cut.1.now) }
    ensures none { IsNone result → ¬ Contains bytes.now 10 }
{
    let end = bytes.iter().position(|byte| *byte == b'\n')?;
    Some(bytes.split_at(end + 1))
}

/// The first line of a text, without its line feed and one CR before that or at the end, and the
/// bytes behind that line feed.
pub fn first_line(text: &[u8]) -> (&[u8], &[u8])
    ensures { IsFirstLine text.now result.0.now result.1.now }
{
    match text.iter().position(|byte| *byte == b'\n') {
        Some(end) => (bare(&text[..end]), &text[end + 1..]),
        None => (bare(text), &[]),
    }
}

/// The bytes without one CR at their end, if there is one.
pub fn bare(bytes: &[u8]) -> &[u8]
    ensures { IsBare bytes.now result.now }
{
    match bytes {
        [front @ .., b'\r'] => front,
        _ => bytes,
    }
}
