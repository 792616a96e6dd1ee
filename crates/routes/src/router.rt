//! Which of the nine paths a path is.
ghost use Rattle.std.specs.Prelude.{◌≡◌, IfOk, IfSome, IsNone, MatchOption};
ghost use Rattle.matchit.specs.Seek.{first as first_in};
ghost use Rattle.routes.specs.declared.page.Page.{Page as AnyPage};
ghost use Rattle.routes.specs.declared.route.Route.{Route as AnyRoute};
ghost use Rattle.routes.specs.Routes.{IsRoute};
ghost use Rattle.routes.specs.Forms.{HasForm};
ghost use Rattle.routes.specs.Table.{table};

use crate::page::Page;
use crate::parts::route_at;
use crate::route::Route;
use matchit::{InsertError, Router};
use ports::NoMemory;
use std::alloc::Global;
use std::marker::Model;

/// The table of the nine paths, ready to be searched.
#[derive(Drop)]
pub struct Routes {
    router: Router<Page>,
}

impl Model for Routes {
    ghost use Rattle.std.specs.Prelude.{◌≡◌, ⊤};
    ghost use Rattle.routes.specs.Table.{table};

    ghost Value = { ⊤ };

    ghost view = { λ s. tt };

    ghost invariant = { λ s. s.router ≡ table };
}

impl Routes {
    /// The table of the nine paths.
    ///
    /// # Errors
    ///
    /// `NoMemory` where there was none.
    pub fn new(alloc: Global) -> Result<Routes, NoMemory> {
        match paths(alloc) {
            Ok(router) => Ok(Routes { router }),
            Err(_) => Err(NoMemory),
        }
    }

    /// The path of the table that this path is, with its parts; `None` exactly where it is none of
    /// them. A part is at least one byte without a slash. It takes no memory.
    pub fn find<'a>(&self, path: &'a str) -> Option<Route<'a>>
        ensures { MatchOption result ((route : AnyRoute) → ¬ IsRoute path.now route)
            (λ route. IsRoute path.now route) }
    {
        match page_in(&self.router, path) {
            Some(page) => Some(route_at(page, path)),
            None => None,
        }
    }
}

/// The router of the nine paths, each inserted once.
fn paths(alloc: Global) -> Result<Router<Page>, InsertError>
    ensures { IfOk result (λ router. router ≡ table) }
{
    let mut router = Router::new(alloc);
    router.insert("/projects", Page::Projects)?;
    router.insert("/projects/{name}", Page::Project)?;
    router.insert("/projects/{name}/faults", Page::Faults)?;
    router.insert("/projects/{name}/pattern", Page::Pattern)?;
    router.insert("/projects/{name}/cp", Page::Cp)?;
    router.insert("/projects/{name}/fold", Page::Fold)?;
    router.insert("/projects/{name}/vertex", Page::Vertex)?;
    router.insert("/projects/{name}/edits", Page::Edits)?;
    router.insert("/projects/{name}/sheet/{w}/{h}", Page::Sheet)?;
    Ok(router)
}

/// The page of a path.
fn page_in(router: &Router<Page>, path: &str) -> Option<Page>
    requires { router.now ≡ table }
    ensures form { IfSome result (λ page. HasForm page path.now) }
    ensures none { IsNone result → (page : AnyPage) → ¬ HasForm page path.now }
{
    seen(router, path)
}

/// What the router keeps for a path.
fn seen(router: &Router<Page>, path: &str) -> Option<Page>
    ensures { MatchOption (first_in router.now path.now) (result ≡ None)
        (λ route. result ≡ Some route.value) }
{
    match router.at(path) {
        Ok(found) => Some(*found.value),
        Err(_) => None,
    }
}
