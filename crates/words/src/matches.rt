//! The words behind the first one, as `clap` reads them.
ghost use Rattle.std.specs.Prelude.{◌≡◌, false, IfOk, map, string_bytes};
ghost use Rattle.clap.specs.Words.{first_of, found_of, rows_of, matches_of, rule_of};
ghost use Rattle.words.specs.Apps.{option_rule, word_rule, check_app, script_app, generate_app, serve_app};
ghost use Rattle.words.specs.Tasks.{maybe_text};

use clap::{Arg, ArgMatches, Command, Error};
use std::alloc::Global;

/// An option with one value.
fn option<'a>(alloc: Global, name: &'a str) -> Arg<'a>
    ensures rule { rule_of result ≡ option_rule name.entry.now }
    ensures local { result.global ≡ false }
{
    Arg::new(alloc, name).long(name)
}

/// A word that has to be there.
fn word<'a>(alloc: Global, name: &'a str) -> Arg<'a>
    ensures rule { rule_of result ≡ word_rule name.entry.now }
    ensures local { result.global ≡ false }
{
    Arg::new(alloc, name).required(true)
}

/// What the words behind `check` give.
pub(crate) fn check_matches<'a>(alloc: Global, words: &'a [String]) -> Result<ArgMatches<'a>, Error>
    ensures found { IfOk result
        (λ m. rows_of (found_of m) ≡ matches_of check_app (map string_bytes words.entry.now)) }
{
    let d = option(alloc, "d");
    let k = option(alloc, "k");
    let tol = option(alloc, "tol");
    let w = option(alloc, "w");
    let h = option(alloc, "h");
    let command = Command::new(alloc, "check")
        .no_binary_name(true)
        .disable_help_flag(true)
        .arg(d)?
        .arg(k)?
        .arg(tol)?
        .arg(w)?
        .arg(h)?;
    command.try_get_matches_from(words)
}

/// What the words behind `script` give.
pub(crate) fn script_matches<'a>(
    alloc: Global,
    words: &'a [String],
) -> Result<ArgMatches<'a>, Error>
    ensures found { IfOk result
        (λ m. rows_of (found_of m) ≡ matches_of script_app (map string_bytes words.entry.now)) }
{
    let keep = option(alloc, "keep");
    let command = Command::new(alloc, "script")
        .no_binary_name(true)
        .disable_help_flag(true)
        .arg(keep)?;
    command.try_get_matches_from(words)
}

/// What the words behind `generate` give.
pub(crate) fn generate_matches<'a>(
    alloc: Global,
    words: &'a [String],
) -> Result<ArgMatches<'a>, Error>
    ensures found { IfOk result
        (λ m. rows_of (found_of m) ≡ matches_of generate_app (map string_bytes words.entry.now)) }
{
    let seed = word(alloc, "seed");
    let count = word(alloc, "count");
    let command = Command::new(alloc, "generate")
        .no_binary_name(true)
        .disable_help_flag(true)
        .arg(seed)?
        .arg(count)?;
    command.try_get_matches_from(words)
}

/// What the words behind `serve` give.
pub(crate) fn serve_matches<'a>(alloc: Global, words: &'a [String]) -> Result<ArgMatches<'a>, Error>
    ensures found { IfOk result
        (λ m. rows_of (found_of m) ≡ matches_of serve_app (map string_bytes words.entry.now)) }
{
    let port = word(alloc, "port");
    let connections = option(alloc, "connections");
    let keep = option(alloc, "keep");
    let command = Command::new(alloc, "serve")
        .no_binary_name(true)
        .disable_help_flag(true)
        .arg(port)?
        .arg(connections)?
        .arg(keep)?;
    command.try_get_matches_from(words)
}

/// The text of an argument.
pub(crate) fn found<'a>(matches: &ArgMatches<'a>, name: &str) -> Option<&'a str>
    ensures { maybe_text result ≡ first_of name.now (rows_of (found_of matches.now)) }
{
    matches.get_str(name)
}
