//! What the words of the command line ask for.
ghost use Rattle.std.specs.Prelude.{◌∷◌, IfOk, codes, map, string_bytes};
ghost use Rattle.words.specs.Words.{Asks};
ghost use Rattle.words.specs.Tasks.{task_of};

use crate::further::{for_check, for_generate, for_script, for_serve};
use lattice::Lattice;
use ports::NoMemory;
use sheet::Sheet;
use std::alloc::Global;

/// What the words of the command line ask for.
#[derive(Clone, Copy, Debug, PartialEq, Eq)]
pub enum Ask<'a> {
    /// The usage text, since they are no command's.
    Usage,
    /// The subdivision of a pattern.
    Cut,
    /// The faults of what a CP text draws on the sheet, by the lattice.
    Check {
        lattice: Lattice,
        sheet: Sheet,
    },
    /// The answers to a script, over projects that are kept in the file at this path, if there is one.
    Script {
        keep: Option<&'a str>,
    },
    /// So many turns of the generator with this seed, at most 100,000.
    Generate {
        seed: u64,
        count: u64,
    },
    /// The answers to requests that come at a port, from 1 to 65,535, over so many connections: from 1
    /// to 1,000,000, or 2^64 - 1 where the words do not say it. The path is that of a script.
    Serve {
        port: u16,
        connections: u64,
        keep: Option<&'a str>,
    },
}

/// What these words ask for: those after the program's name. Words that are no command's ask for the
/// usage text. No command takes `-`, `--`, an empty word, or a value that is empty or begins with `-`.
/// What comes out is best taken by reference.
///
/// # Errors
///
/// `NoMemory` where memory was wanted to read them.
pub fn asked<'a>(alloc: Global, words: &'a [String]) -> Result<Ask<'a>, NoMemory>
    ensures { IfOk result (λ ask. Asks (map string_bytes words.entry.now) (task_of ask)) }
{
    match words {
        [] => Ok(Ask::Usage),
        [word, further @ ..] => asked_behind(alloc, word.as_str(), further),
    }
}

/// What a first word with further words asks for.
fn asked_behind<'a>(alloc: Global, word: &str, further: &'a [String]) -> Result<Ask<'a>, NoMemory>
    ensures { IfOk result (λ ask. Asks (word.now ∷ map string_bytes further.entry.now) (task_of ask)) }
{
    match word {
        "cut" => Ok(ask_cut(further)),
        "check" => ask_check(alloc, further),
        "script" => ask_script(alloc, further),
        "generate" => ask_generate(alloc, further),
        "serve" => ask_serve(alloc, further),
        _ => Ok(Ask::Usage),
    }
}

/// What `cut` with further words asks for.
fn ask_cut(further: &[String]) -> Ask<'_>
    ensures { Asks (codes "cut" ∷ map string_bytes further.now) (task_of result) }
{
    if further.is_empty() {
        Ask::Cut
    } else {
        Ask::Usage
    }
}

/// What `check` with further words asks for.
fn ask_check<'a>(alloc: Global, further: &'a [String]) -> Result<Ask<'a>, NoMemory>
    ensures { IfOk result (λ ask. Asks (codes "check" ∷ map string_bytes further.entry.now) (task_of ask)) }
{
    match for_check(alloc, further) {
        Err(_) => Err(NoMemory),
        Ok(None) => Ok(Ask::Usage),
        Ok(Some((lattice, sheet))) => Ok(Ask::Check { lattice, sheet }),
    }
}

/// What `script` with further words asks for.
fn ask_script<'a>(alloc: Global, further: &'a [String]) -> Result<Ask<'a>, NoMemory>
    ensures { IfOk result (λ ask. Asks (codes "script" ∷ map string_bytes further.entry.now) (task_of ask)) }
{
    match for_script(alloc, further) {
        Err(_) => Err(NoMemory),
        Ok(None) => Ok(Ask::Usage),
        Ok(Some(keep)) => Ok(Ask::Script { keep }),
    }
}

/// What `generate` with further words asks for.
fn ask_generate<'a>(alloc: Global, further: &'a [String]) -> Result<Ask<'a>, NoMemory>
    ensures { IfOk result
        (λ ask. Asks (codes "generate" ∷ map string_bytes further.entry.now) (task_of ask)) }
{
    match for_generate(alloc, further) {
        Err(_) => Err(NoMemory),
        Ok(None) => Ok(Ask::Usage),
        Ok(Some((seed, count))) => Ok(Ask::Generate { seed, count }),
    }
}

/// What `serve` with further words asks for.
fn ask_serve<'a>(alloc: Global, further: &'a [String]) -> Result<Ask<'a>, NoMemory>
    ensures { IfOk result (λ ask. Asks (codes "serve" ∷ map string_bytes further.entry.now) (task_of ask)) }
{
    match for_serve(alloc, further) {
        Err(_) => Err(NoMemory),
        Ok(None) => Ok(Ask::Usage),
        Ok(Some(service)) => Ok(Ask::Serve {
            port: service.port,
            connections: service.connections,
            keep: service.keep,
        }),
    }
}
