//! The target of a request line, and texts that are cut at a character.
ghost use Rattle.std.specs.Prelude.{◌<◌};
ghost use Rattle.routes.specs.Cuts.{IsSplit};
ghost use Rattle.routes.specs.Targets.{IsTarget};

/// The path of a request target, and the query behind its first question mark (RFC 9112, section 3.2;
/// RFC 3986, section 3.4). Where no question mark stands the query is empty.
pub fn cut_target(target: &str) -> (&str, &str)
    ensures { IsTarget target.now result.0.now result.1.now }
{
    split(target, '?')
}

/// What stands before the first such character, and what stands behind it.
pub(crate) fn split(text: &str, mark: char) -> (&str, &str)
    requires { mark < 128 }
    ensures { IsSplit mark text.now result.0.now result.1.now }
{
    match text.split_once(mark) {
        Some((before, behind)) => (before, behind),
        None => (text, ""),
    }
}
