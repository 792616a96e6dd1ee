//! The command text that a request stands for.
ghost use Rattle.std.specs.Prelude.{◌≡◌, ◌++◌, ◌∷◌, codes, IfOk, MatchOption, ℕ, List};
ghost use Rattle.routes.specs.Asking.{Asks, AsksProject, IsVertex};

use crate::edit::read_edit;
use crate::method::Method;
use crate::query::read_query;
use crate::route::Route;
use ports::NoMemory;
use std::alloc::Global;

/// The command text that a request with this path, method, query and body asks for, where the path has
/// the method; `None` exactly where the query of a vertex or the body of an edit is not of its form.
/// Other queries and bodies are not looked at. The text begins with the word of a command; whether the
/// rest of it is that of one is not told here.
///
/// # Errors
///
/// `NoMemory` where there was none.
pub fn command_text(
    alloc: Global,
    route: &Route,
    method: Method,
    query: &[u8],
    body: &[u8],
) -> Result<Option<Vec<u8>>, NoMemory>
    ensures { IfOk result (λ text. MatchOption text
        ((asked : List ℕ) → ¬ Asks route.now method query.now body.now asked)
        (λ asked. Asks route.now method query.now body.now asked.items)) }
{
    match route {
        Route::Projects => line(alloc, "list", ""),
        Route::Project(name) => project_text(alloc, name, method),
        Route::Faults(name) => line(alloc, "faults ", name),
        Route::Pattern(name) => line(alloc, "pattern ", name),
        Route::Cp(name) => line(alloc, "cp ", name),
        Route::Fold(name) => line(alloc, "fold ", name),
        Route::Vertex(name) => vertex_text(alloc, name, query),
        Route::Edits(name) => read_edit(alloc, name, body),
        Route::Sheet(name, width, height) => sheet_text(alloc, name, width, height),
    }
}

/// The words, one behind the other.
fn line(alloc: Global, word: &str, name: &str) -> Result<Option<Vec<u8>>, NoMemory>
    ensures { IfOk result (λ text. MatchOption text ⊥ (λ asked. asked.items ≡ word.now ++ name.now)) }
{
    let mut text = Vec::new(alloc);
    text.extend_from_slice(word.as_bytes())?;
    text.extend_from_slice(name.as_bytes())?;
    Ok(Some(text))
}

/// To make a project, or to show it.
fn project_text(alloc: Global, name: &str, method: Method) -> Result<Option<Vec<u8>>, NoMemory>
    ensures { IfOk result (λ text. MatchOption text ((asked : List ℕ) → ¬ AsksProject name.now method asked)
        (λ asked. AsksProject name.now method asked.items)) }
{
    match method {
        Method::Get => line(alloc, "show ", name),
        Method::Put => line(alloc, "new ", name),
        Method::Post => Ok(None),
    }
}

/// To make a project on a sheet of this width and height.
fn sheet_text(
    alloc: Global,
    name: &str,
    width: &str,
    height: &str,
) -> Result<Option<Vec<u8>>, NoMemory>
    ensures { IfOk result (λ text. MatchOption text ⊥ (λ asked.
        asked.items ≡ codes "new " ++ (name.now ++ (32 ∷ (width.now ++ (32 ∷ height.now)))))) }
{
    let mut text = Vec::new(alloc);
    text.extend_from_slice(b"new ")?;
    text.extend_from_slice(name.as_bytes())?;
    text.push(b' ')?;
    text.extend_from_slice(width.as_bytes())?;
    text.push(b' ')?;
    text.extend_from_slice(height.as_bytes())?;
    Ok(Some(text))
}

/// To look at the vertex that the query asks for.
fn vertex_text(alloc: Global, name: &str, query: &[u8]) -> Result<Option<Vec<u8>>, NoMemory>
    ensures { IfOk result (λ text. MatchOption text ((asked : List ℕ) → ¬ IsVertex name.now query.now asked)
        (λ asked. IsVertex name.now query.now asked.items)) }
{
    match read_query(alloc, query)? {
        Some(point) => {
            let text = point_text(alloc, name, &point)?;
            Ok(Some(text))
        }
        None => Ok(None),
    }
}

/// The name and the text of a point.
fn point_text(alloc: Global, name: &str, point: &[u8]) -> Result<Vec<u8>, NoMemory>
    ensures { IfOk result (λ text. text.items ≡ codes "vertex " ++ (name.now ++ (32 ∷ point.now))) }
{
    let mut text = Vec::new(alloc);
    text.extend_from_slice(b"vertex ")?;
    text.extend_from_slice(name.as_bytes())?;
    text.push(b' ')?;
    text.extend_from_slice(point)?;
    Ok(text)
}
