//! The body of an edit.
ghost use Rattle.std.specs.Prelude.{◌≡◌, codes, IfOk, MatchOption, Option, ℕ, List, OnOk, ◌++◌};
ghost use Rattle.serde_json.specs.View.{view};
ghost use Rattle.serde_json.specs.Find.{get};
ghost use Rattle.routes.specs.Edits.{GivesRev, IsEdit, IsEditIn, IsEditOf, Says, edit_text};
ghost use Rattle.vocabulary.specs.Revs.{rev_text};

use crate::change::change_in;
use itoa::Buffer;
use ports::NoMemory;
use serde_json::Value;
use std::alloc::{AllocError, Global};
use vocabulary::LAST_REV;

/// The command text of an edit of the project, by the body of its request; `None` exactly where the
/// body is not of its form: a JSON object (RFC 8259) with the string `command`, which begins with the
/// word of a change, and perhaps the number `rev`, without a sign, a point or an exponent, from 0 to
/// 10^12. Of a key that stands more than once the last value counts; other keys are not looked at.
///
/// # Errors
///
/// `NoMemory` where there was none.
pub(crate) fn read_edit(alloc: Global, name: &str, body: &[u8]) -> Result<Option<Vec<u8>>, NoMemory>
    ensures { IfOk result (λ text. MatchOption text ((edit : List ℕ) → ¬ IsEdit name.now body.now edit)
        (λ edit. IsEdit name.now body.now edit.items)) }
{
    match Value::from_slice(alloc, body) {
        Ok(value) => edit_in(alloc, name, &value),
        Err(error) => {
            if error.is_memory() {
                return Err(NoMemory);
            }
            Ok(None)
        }
    }
}

/// The command text that a value asks for.
fn edit_in(alloc: Global, name: &str, value: &Value) -> Result<Option<Vec<u8>>, NoMemory>
    ensures { IfOk result (λ text. MatchOption text
        ((edit : List ℕ) → ¬ IsEditIn name.now (view value.now) edit)
        (λ edit. IsEditIn name.now (view value.now) edit.items)) }
{
    match said(value) {
        Some((command, rev)) => edit_of(alloc, name, command, rev),
        None => Ok(None),
    }
}

/// The command that a value gives, and its rev.
fn said(value: &Value) -> Option<(&str, Option<u64>)>
    ensures { MatchOption result
        ((command : List ℕ) (rev : Option ℕ) → ¬ Says (view value.now) command rev)
        (λ said. Says (view value.now) said.0.now said.1) }
{
    match (value.get("command").and_then(Value::as_str), rev_in(value)) {
        (Some(command), Some(rev)) => Some((command, rev)),
        _ => None,
    }
}

/// The rev that a value gives, if it gives one; `None` where what it gives is no rev.
fn rev_in(value: &Value) -> Option<Option<u64>>
    ensures { MatchOption result
        ((rev : Option ℕ) → ¬ GivesRev (get (codes "rev") (view value.now)) rev)
        (λ rev. GivesRev (get (codes "rev") (view value.now)) rev) }
{
    match value.get("rev") {
        None => Some(None),
        Some(rev) => match rev.as_u64() {
            Some(number) if number <= LAST_REV => Some(Some(number)),
            _ => None,
        },
    }
}

/// The command text of an edit by its command and its rev.
fn edit_of(
    alloc: Global,
    name: &str,
    command: &str,
    rev: Option<u64>,
) -> Result<Option<Vec<u8>>, NoMemory>
    ensures { IfOk result (λ text. MatchOption text
        ((edit : List ℕ) → ¬ IsEditOf name.now command.now rev edit)
        (λ edit. IsEditOf name.now command.now rev edit.items)) }
{
    match change_in(command.as_bytes()) {
        Some((word, behind)) => {
            let text = written(alloc, word, name, rev, behind)?;
            Ok(Some(text))
        }
        None => Ok(None),
    }
}

/// The word, the name with the rev behind it, and what stood behind the word.
fn written(
    alloc: Global,
    word: &[u8],
    name: &str,
    rev: Option<u64>,
    behind: &[u8],
) -> Result<Vec<u8>, NoMemory>
    ensures { IfOk result (λ text. text.items ≡ edit_text word.now name.now rev behind.now) }
{
    let mut text = Vec::new(alloc);
    text.extend_from_slice(word)?;
    text.push(b' ')?;
    text.extend_from_slice(name.as_bytes())?;
    put_rev(&mut text, rev)?;
    text.extend_from_slice(behind)?;
    Ok(text)
}

/// Appends `@` and the rev, where one is given.
fn put_rev(text: &mut Vec<u8>, rev: Option<u64>) -> Result<(), AllocError>
    ensures { OnOk result (text.new.items ≡ text.old.items ++ rev_text rev) }
{
    if let Some(rev) = rev {
        let mut buffer = Buffer::new();
        text.push(b'@')?;
        text.extend_from_slice(buffer.format(rev).as_bytes())?;
    }
    Ok(())
}
