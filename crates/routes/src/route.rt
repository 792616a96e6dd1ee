//! A path of the table, with its free parts.
ghost use Rattle.std.specs.Prelude.{◌≡◌, ◌↔◌, IfSome, IsTrue, MatchOption, option_map};
ghost use Rattle.vocabulary.specs.Names.{IsName};
ghost use Rattle.routes.specs.Routes.{name_of};
ghost use Rattle.routes.specs.Methods.{IsTaken, allowed};

use crate::method::Method;
use vocabulary::Name;

/// One of the nine paths, with its free parts as they stand in the path.
#[derive(Clone, Copy, Debug, PartialEq, Eq)]
pub enum Route<'a> {
    /// `/projects`
    Projects,
    /// `/projects/{name}`
    Project(&'a str),
    /// `/projects/{name}/faults`
    Faults(&'a str),
    /// `/projects/{name}/pattern`
    Pattern(&'a str),
    /// `/projects/{name}/cp`
    Cp(&'a str),
    /// `/projects/{name}/fold`
    Fold(&'a str),
    /// `/projects/{name}/vertex`
    Vertex(&'a str),
    /// `/projects/{name}/edits`
    Edits(&'a str),
    /// `/projects/{name}/sheet/{w}/{h}`: the name, the width and the height
    Sheet(&'a str, &'a str, &'a str),
}

impl<'a> Route<'a> {
    /// The part of the path that names a project; `None` exactly for `/projects`. It need not be a
    /// name of a project.
    pub fn name(&self) -> Option<&'a str>
        ensures { option_map (λ name. name.now) result ≡ name_of self.now }
    {
        match self {
            Route::Projects => None,
            Route::Project(name) | Route::Faults(name) | Route::Pattern(name) => Some(*name),
            Route::Cp(name) | Route::Fold(name) | Route::Vertex(name) => Some(*name),
            Route::Edits(name) | Route::Sheet(name, _, _) => Some(*name),
        }
    }

    /// Whether the part that names a project is the name of one, where there is such a part.
    pub fn is_named(&self) -> bool
        ensures { IsTrue result ↔ IfSome (name_of self.now) IsName }
    {
        match self.name() {
            None => true,
            Some(name) => Name::new(name.as_bytes()).is_ok(),
        }
    }

    /// The method that the bytes spell, where the path has it; `None` exactly where they spell none
    /// that it has. Case counts (RFC 9110, section 9.1).
    pub fn method(&self, bytes: &[u8]) -> Option<Method>
        ensures { MatchOption result ((method : Method) → ¬ IsTaken self.now bytes.now method)
            (λ method. IsTaken self.now bytes.now method) }
    {
        match (self, bytes) {
            (Route::Project(_), b"PUT") => Some(Method::Put),
            (Route::Sheet(_, _, _), b"PUT") => Some(Method::Put),
            (Route::Sheet(_, _, _), _) => None,
            (Route::Edits(_), b"POST") => Some(Method::Post),
            (Route::Edits(_), _) => None,
            (_, b"GET") => Some(Method::Get),
            _ => None,
        }
    }

    /// The methods of the path, as the field Allow tells them (RFC 9110, section 10.2.1).
    pub fn allow(&self) -> &'static str
        ensures { result.now ≡ allowed self.now }
    {
        match self {
            Route::Project(_) => "PUT, GET",
            Route::Sheet(_, _, _) => "PUT",
            Route::Edits(_) => "POST",
            _ => "GET",
        }
    }
}
