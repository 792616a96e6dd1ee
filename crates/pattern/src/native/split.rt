//! A text cut at the first place of a byte.
ghost use Rattle.std.specs.Prelude.{◌≡◌, ◌==◌, IfSome, IsNone, Contains, position};
ghost use Rattle.pattern.specs.Splitting.{SplitsAt};

/// What stands before and after the first place of a byte, or None where it has none.
pub(super) fn split(bytes: &[u8], at: u8) -> Option<(&[u8], &[u8])>
    ensures some { IfSome result (λ parts. SplitsAt bytes.now at parts.0.now parts.1.now) }
    ensures none { IsNone result → ¬ Contains bytes.now at }
{
    let place = place_of(bytes, at)?;
    Some((&bytes[..place], &bytes[place + 1..]))
}

fn place_of(bytes: &[u8], at: u8) -> Option<usize>
    ensures { result ≡ position (λ b. b == at) bytes.now }
{
    bytes.iter().position(|byte| *byte == at)
}
