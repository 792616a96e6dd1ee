//! The text of a delta: a line for each crease, with a sign before its native line.
ghost use Rattle.std.specs.Prelude.{◌≡◌, ◌≢◌, ◌<◌, ◌≤◌, ◌+◌, ◌++◌, ◌↔◌, ◌∷◌, ℕ, List, IfOk, IfSome, IsNone};
ghost use Rattle.std.specs.Prelude.{IsTrue, OnOk, length, drop};
ghost use Rattle.sheet.specs.Pattern.{ExactCrease};
ghost use Rattle.pattern.specs.declared.delta.Delta.{Delta as AnyDelta};
ghost use Rattle.pattern.specs.NativeReader.{IsLast};
ghost use Rattle.pattern.specs.DeltaText.{entries_text, delta_text, IsDeltaText};
ghost use Rattle.pattern.specs.DeltaReader.{IsEntries, IsEntry};

use super::line::letter_and_ends;
use super::place::is_after;
use super::single::read_crease;
use super::split::split;
use super::write::put_line;
use crate::{Crease, Delta};
use plane::Seg;
use ports::{Listed, NoMemory};
use std::alloc::{AllocError, Global};

/// The text of a delta: a line `- ` and the native line of each crease that leaves, and then a line
/// `+ ` and the native line of each that comes, both in the order of the lists. Where the lists
/// ascend, as those of a delta that fits do, `read_delta` reads it as this delta again.
///
/// # Errors
///
/// `NoMemory` where memory for the text runs out.
pub fn delta_bytes(alloc: Global, delta: &Delta) -> Result<Vec<u8>, NoMemory>
    ensures { IfOk result (λ text. text.items ≡ delta_text delta.now) }
{
    let mut text = Vec::new(alloc);
    put_entries(&mut text, b'-', delta.removed.as_slice())?;
    put_entries(&mut text, b'+', delta.added.as_slice())?;
    Ok(text)
}

/// Appends a line for each crease.
fn put_entries(text: &mut Vec<u8>, sign: u8, creases: &[Crease]) -> Result<(), AllocError>
    ensures { OnOk result (text.new.items ≡ text.old.items ++ entries_text sign creases.now) }
{
    for crease in creases.iter() {
        text.push(sign)?;
        text.push(b' ')?;
        put_line(text, crease)?;
    }
    Ok(())
}

/// The delta whose text these bytes are: the creases that leave, ascending, and then those that
/// come, ascending. None exactly where they are the text of no such delta.
///
/// # Errors
///
/// `NoMemory` where memory for the lists runs out.
pub fn read_delta(alloc: Global, text: &[u8]) -> Result<Option<Delta>, NoMemory>
    ensures some { IfOk result (λ found. IfSome found (IsDeltaText text.now)) }
    ensures none { IfOk result (λ found. IsNone found → (delta : AnyDelta) → ¬ IsDeltaText text.now delta) }
{
    let Some((removed, start)) = read_entries(alloc, text, b'-')? else {
        return Ok(None);
    };
    let rest = &text[start..];
    let Some((added, end)) = read_entries(alloc, rest, b'+')? else {
        return Ok(None);
    };
    if end < rest.len() {
        return Ok(None);
    }
    Ok(Some(Delta { removed, added }))
}

/// The creases of the entries with this sign at the front of the bytes, and how long these entries
/// are, or None where a line with this sign is no entry or does not ascend.
fn read_entries(
    alloc: Global,
    text: &[u8],
    sign: u8,
) -> Result<Option<(Listed<Crease>, usize)>, NoMemory>
    requires { sign ≢ 10 }
    ensures some { IfOk result
        (λ found. IfSome found
        (λ e. (e.1 ≤ length text.now) × IsEntries sign text.now e.0 (drop e.1 text.now))) }
    ensures none { IfOk result
        (λ found. IsNone found → (creases : List ExactCrease) (rest : List ℕ)
        → ¬ IsEntries sign text.now creases rest) }
{
    let mut creases = Vec::new(alloc);
    let mut last = None;
    let mut at = 0;
    while begins_with(&text[at..], sign) {
        let Some((crease, length)) = first_entry(&text[at..], sign, &last) else {
            return Ok(None);
        };
        creases.push(crease)?;
        last = Some(crease.seg);
        at += length;
    }
    Ok(Some((Listed::new(creases), at)))
}

/// Whether the bytes begin with a sign.
fn begins_with(bytes: &[u8], sign: u8) -> bool
    ensures { IsTrue result ↔ ((after : List ℕ) × (bytes.now ≡ sign ∷ after)) }
{
    match bytes {
        [first, ..] => *first == sign,
        _ => false,
    }
}

/// The crease of the first entry of the bytes, if it has this sign and comes after the last segment,
/// and how long the entry is with its line feed.
fn first_entry(bytes: &[u8], sign: u8, last: &Option<Seg>) -> Option<(Crease, usize)>
    requires { sign ≢ 10 }
    ensures some { (creases : List ExactCrease) → IsLast last.now creases
        → IfSome result (λ e. IsEntry sign bytes.now creases e.0 (drop e.1 bytes.now)) }
    ensures length { IfSome result (λ e. (0 < e.1) × (e.1 ≤ length bytes.now)) }
    ensures none { IsNone result → (creases : List ExactCrease) (f : ExactCrease) (rest : List ℕ)
        → IsLast last.now creases → ¬ IsEntry sign bytes.now creases f rest }
{
    let (line, _) = split(bytes, b'\n')?;
    let (first, text) = letter_and_ends(line)?;
    let crease = read_crease(text)?;
    if first == sign && is_after(&crease.seg.p(), &crease.seg.q(), last) {
        Some((crease, line.len() + 1))
    } else {
        None
    }
}
