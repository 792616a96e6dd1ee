//! Laws of the definitions.
ghost use Rattle.std.specs.Prelude.{◌≡◌, ℕ, List};
ghost use Rattle.routes.specs.declared.method.Method.{Method};
ghost use Rattle.routes.specs.declared.route.Route.{Route};
ghost use Rattle.routes.specs.Targets.{IsTarget};
ghost use Rattle.routes.specs.Routes.{IsRoute};
ghost use Rattle.routes.specs.Asking.{Asks};
ghost use Rattle.routes.specs.FirstWords.{BeginsWithVerb};

/// A target is cut in one way.
pub fn target_is_one()
    ensures { (target path query otherpath otherquery : List ℕ) → IsTarget target path query
        → IsTarget target otherpath otherquery → (path ≡ otherpath) × (query ≡ otherquery) }
{}

/// A path, with a method, a query and a body, asks for one command text.
pub fn asking_is_one()
    ensures { (path query body text otherwise : List ℕ) (method : Method) (route other : Route)
        → IsRoute path route → IsRoute path other → Asks route method query body text
        → Asks other method query body otherwise → text ≡ otherwise }
{}

/// What a request asks for begins with the verb of a command.
pub fn asking_begins_with_a_verb()
    ensures { (query body text : List ℕ) (method : Method) (route : Route)
        → Asks route method query body text → BeginsWithVerb text }
{}
