//! The free parts of a path.
ghost use Rattle.std.specs.Prelude.{◌≡◌, ◌++◌, List, ℕ, codes};
ghost use Rattle.routes.specs.Forms.{HasForm};
ghost use Rattle.routes.specs.Routes.{IsRoute};

use crate::page::Page;
use crate::route::Route;
use crate::target::split;

/// The path of this page, with its parts.
pub(crate) fn route_at<'a>(page: Page, path: &'a str) -> Route<'a>
    requires { HasForm page path.now }
    ensures { IsRoute path.now result }
{
    let (name, behind) = split(behind_projects(path), '/');
    match page {
        Page::Projects => Route::Projects,
        Page::Project => Route::Project(name),
        Page::Faults => Route::Faults(name),
        Page::Pattern => Route::Pattern(name),
        Page::Cp => Route::Cp(name),
        Page::Fold => Route::Fold(name),
        Page::Vertex => Route::Vertex(name),
        Page::Edits => Route::Edits(name),
        Page::Sheet => {
            let (width, height) = split(behind_sheet(behind), '/');
            Route::Sheet(name, width, height)
        }
    }
}

/// What follows `/projects/`, if that comes first.
fn behind_projects<'a>(text: &'a str) -> &'a str
    ensures { (rest : List ℕ) → text.now ≡ codes "/projects/" ++ rest → result.now ≡ rest }
{
    match text.strip_prefix("/projects/") {
        Some(rest) => rest,
        None => "",
    }
}

/// What follows `sheet/`, if that comes first.
fn behind_sheet<'a>(text: &'a str) -> &'a str
    ensures { (rest : List ℕ) → text.now ≡ codes "sheet/" ++ rest → result.now ≡ rest }
{
    match text.strip_prefix("sheet/") {
        Some(rest) => rest,
        None => "",
    }
}
