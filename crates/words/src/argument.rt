//! The arguments of commands.
ghost use Rattle.std.specs.Prelude.{◌≡◌, ◌≢◌, ◌↔◌, Contains, IsTrue, MatchOption, Some};
ghost use Rattle.words.specs.Grammar.{option_word};
ghost use Rattle.words.specs.declared.argument.Argument.{Argument as AnyArgument};

/// What a word behind the first one of a command may give a value to.
#[derive(Clone, Copy, Debug, PartialEq, Eq)]
pub(crate) enum Argument {
    /// The port to serve at.
    Port,
    /// The denominator of the lattice.
    D,
    /// The bound of its numerators.
    K,
    /// Its tolerance, in millionths.
    Tol,
    /// The width of the sheet.
    W,
    /// The height of the sheet.
    H,
    /// How many connections are served.
    Connections,
    /// The path of the file to keep projects in.
    Keep,
}

/// The option that a word names.
pub(crate) fn named(word: &str) -> Option<Argument>
    ensures { MatchOption result ((a : AnyArgument) → option_word a ≢ Some word.now)
        (λ a. option_word a ≡ Some word.now) }
{
    match word {
        "--d" => Some(Argument::D),
        "--k" => Some(Argument::K),
        "--tol" => Some(Argument::Tol),
        "--w" => Some(Argument::W),
        "--h" => Some(Argument::H),
        "--connections" => Some(Argument::Connections),
        "--keep" => Some(Argument::Keep),
        _ => None,
    }
}

/// Whether an argument is one of these.
pub(crate) fn is_among(arguments: &[Argument], argument: Argument) -> bool
    ensures { IsTrue result ↔ Contains arguments.now argument }
{
    match arguments {
        [] => false,
        [first, rest @ ..] => *first == argument || is_among(rest, argument),
    }
}
