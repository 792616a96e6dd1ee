//! The words behind the first one, for each command that has some.
ghost use Rattle.std.specs.Prelude.{◌≡◌, ◌↔◌, ℕ, List, Option as AnyOption, Some, IfOk, IfSome, IsNone};
ghost use Rattle.std.specs.Prelude.{IsTrue};
ghost use Rattle.std.specs.Prelude.{map, string_bytes};
ghost use Rattle.sheet.specs.Sheet.{ExactSheet};
ghost use Rattle.lattice.specs.Lattice.{Measures};
ghost use Rattle.words.specs.Words.{AreForCheck, AreForScript, AreForGenerate, AreForServe};
ghost use Rattle.words.specs.Tasks.{maybe_text};
ghost use Rattle.words.specs.Texts.{SpellCheck, SpellGenerate, SpellServe, AreTwo};

use crate::argument::Argument;
use crate::given::{are_given, text_of};
use crate::matches::{check_matches, found, generate_matches, script_matches, serve_matches};
use crate::number::{number, number_or, small_or};
use crate::text::may_be_value;
use lattice::Lattice;
use ports::NoMemory;
use sheet::Sheet;
use std::alloc::Global;
use vocabulary::read_number;

/// The lattice and the sheet that the words behind `check` name, if they are its words.
pub(crate) fn for_check(
    alloc: Global,
    further: &[String],
) -> Result<Option<(Lattice, Sheet)>, NoMemory>
    ensures some { IfOk result (λ r. IfSome r (λ s. AreForCheck (map string_bytes further.now) s.0 s.1)) }
    ensures none { IfOk result (λ r. IsNone r → (lattice : Measures) (sheet : ExactSheet)
        → ¬ AreForCheck (map string_bytes further.now) lattice sheet) }
{
    if !are_given(
        &[
            Argument::D,
            Argument::K,
            Argument::Tol,
            Argument::W,
            Argument::H,
        ],
        further,
    ) {
        return Ok(None);
    }
    match check_matches(alloc, further) {
        Err(_) => Err(NoMemory),
        Ok(matches) => {
            let d = found(&matches, "d");
            let k = found(&matches, "k");
            let tol = found(&matches, "tol");
            let w = found(&matches, "w");
            let h = found(&matches, "h");
            Ok(check_by(d, k, tol, w, h))
        }
    }
}

/// The lattice and the sheet by the texts of the options of `check`.
fn check_by(
    d: Option<&str>,
    k: Option<&str>,
    tol: Option<&str>,
    w: Option<&str>,
    h: Option<&str>,
) -> Option<(Lattice, Sheet)>
    ensures some { IfSome result (λ s. SpellCheck (maybe_text d.entry) (maybe_text k.entry)
        (maybe_text tol.entry) (maybe_text w.entry) (maybe_text h.entry) s.0 s.1) }
    ensures none { IsNone result → (lattice : Measures) (sheet : ExactSheet)
        → ¬ SpellCheck (maybe_text d.entry) (maybe_text k.entry) (maybe_text tol.entry)
        (maybe_text w.entry) (maybe_text h.entry) lattice sheet }
{
    let d = small_or(d, 1024, 64)?;
    let k = small_or(k, 1024, 128)?;
    let tol = small_or(tol, 100_000, 1000)?;
    let w = small_or(w, 8, 1)?;
    let h = small_or(h, 8, 1)?;
    let lattice = Lattice::new(d, k, tol)?;
    let sheet = Sheet::new(w as u8, h as u8)?;
    Some((lattice, sheet))
}

/// The path that the words behind `script` name, if they are its words.
pub(crate) fn for_script<'a>(
    alloc: Global,
    further: &'a [String],
) -> Result<Option<Option<&'a str>>, NoMemory>
    ensures some { IfOk result (λ s. IfSome s (λ keep.
        AreForScript (map string_bytes further.entry.now) (maybe_text keep))) }
    ensures none { IfOk result (λ s. IsNone s → (keep : AnyOption (List ℕ))
        → ¬ AreForScript (map string_bytes further.entry.now) keep) }
{
    if !are_given(&[Argument::Keep], further) {
        return Ok(None);
    }
    match script_matches(alloc, further) {
        Err(_) => Err(NoMemory),
        Ok(matches) => Ok(Some(found(&matches, "keep"))),
    }
}

/// The seed and the number of turns that the words behind `generate` name, if they are its words.
pub(crate) fn for_generate(
    alloc: Global,
    further: &[String],
) -> Result<Option<(u64, u64)>, NoMemory>
    ensures some { IfOk result (λ r. IfSome r (λ g. AreForGenerate (map string_bytes further.now) g.0 g.1)) }
    ensures none { IfOk result (λ r. IsNone r → (seed count : ℕ)
        → ¬ AreForGenerate (map string_bytes further.now) seed count) }
{
    if !are_two(further) {
        return Ok(None);
    }
    match generate_matches(alloc, further) {
        Err(_) => Err(NoMemory),
        Ok(matches) => {
            let seed = found(&matches, "seed");
            let count = found(&matches, "count");
            Ok(generate_by(seed, count))
        }
    }
}

/// Whether the words are two values.
fn are_two(further: &[String]) -> bool
    ensures { IsTrue result ↔ AreTwo (map string_bytes further.now) }
{
    match further {
        [seed, count] => may_be_value(seed.as_str()) && may_be_value(count.as_str()),
        _ => false,
    }
}

/// The seed and the number of turns by their texts.
fn generate_by(seed: Option<&str>, count: Option<&str>) -> Option<(u64, u64)>
    ensures some { IfSome result
        (λ g. SpellGenerate (maybe_text seed.entry) (maybe_text count.entry) g.0 g.1) }
    ensures none { IsNone result → (s n : ℕ)
        → ¬ SpellGenerate (maybe_text seed.entry) (maybe_text count.entry) s n }
{
    let seed = read_number(seed?.as_bytes(), u64::MAX)?;
    let count = read_number(count?.as_bytes(), 100_000)?;
    Some((seed, count))
}

/// What `serve` is asked for.
#[derive(Clone, Copy)]
pub(crate) struct Service<'a> {
    pub(crate) port: u16,
    pub(crate) connections: u64,
    pub(crate) keep: Option<&'a str>,
}

/// What the words behind `serve` ask for, if they are its words.
pub(crate) fn for_serve<'a>(
    alloc: Global,
    further: &'a [String],
) -> Result<Option<Service<'a>>, NoMemory>
    ensures some { IfOk result (λ r. IfSome r (λ s. AreForServe (map string_bytes further.entry.now)
        s.port s.connections (maybe_text s.keep))) }
    ensures none { IfOk result (λ r. IsNone r → (port connections : ℕ) (keep : AnyOption (List ℕ))
        → ¬ AreForServe (map string_bytes further.entry.now) port connections keep) }
{
    if !are_given(
        &[Argument::Port, Argument::Connections, Argument::Keep],
        further,
    ) {
        return Ok(None);
    }
    if text_of(further, Argument::Port).is_none() {
        return Ok(None);
    }
    match serve_matches(alloc, further) {
        Err(_) => Err(NoMemory),
        Ok(matches) => {
            let port = found(&matches, "port");
            let connections = found(&matches, "connections");
            let keep = found(&matches, "keep");
            Ok(with_path(serve_by(port, connections), keep))
        }
    }
}

/// The same with a path.
fn with_path<'a>(numbers: Option<(u16, u64)>, keep: Option<&'a str>) -> Option<Service<'a>>
    ensures some { IfSome result (λ s. (numbers ≡ Some (s.port, s.connections)) × (s.keep ≡ keep.entry)) }
    ensures none { IsNone result → IsNone numbers }
{
    let (port, connections) = numbers?;
    Some(Service {
        port,
        connections,
        keep,
    })
}

/// The port and the number of connections by their texts.
fn serve_by(port: Option<&str>, connections: Option<&str>) -> Option<(u16, u64)>
    ensures some { IfSome result (λ s. SpellServe (maybe_text port.entry) (maybe_text connections.entry)
        s.0 s.1) }
    ensures none { IsNone result → (p n : ℕ)
        → ¬ SpellServe (maybe_text port.entry) (maybe_text connections.entry) p n }
{
    let port = number(port?, 65_535)?;
    let connections = number_or(connections, 1_000_000, u64::MAX)?;
    Some((port as u16, connections))
}
