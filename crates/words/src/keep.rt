//! Whether the words ask for projects in a file.
ghost use Rattle.std.specs.Prelude.{◌↔◌, IsTrue, map, string_bytes};
ghost use Rattle.words.specs.Keep.{NamesKeep, HasKeep, Keeps, WantsKeeper};

/// Whether the words ask for a keeper of projects in a file: the first is `script` or `serve`, and a
/// further one is `--keep` or begins with `--keep=`. For words that are no command's the answer means
/// nothing. It takes no memory.
pub fn keep_wanted(words: &[String]) -> bool
    ensures { IsTrue result ↔ WantsKeeper (map string_bytes words.now) }
{
    match words {
        [] => false,
        [first, further @ ..] => keeps(first.as_str()) && has_keep(further),
    }
}

/// Whether a first word is that of a command which keeps projects.
fn keeps(first: &str) -> bool
    ensures { IsTrue result ↔ Keeps first.now }
{
    first == "script" || first == "serve"
}

/// Whether one of the words names the option.
fn has_keep(further: &[String]) -> bool
    ensures { IsTrue result ↔ HasKeep (map string_bytes further.now) }
{
    match further {
        [] => false,
        [word, rest @ ..] => names_keep(word.as_str()) || has_keep(rest),
    }
}

/// Whether a word names the option, alone or with its value.
fn names_keep(word: &str) -> bool
    ensures { IsTrue result ↔ NamesKeep word.now }
{
    word == "--keep" || word.starts_with("--keep=")
}
