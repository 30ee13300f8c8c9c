ghost use Rattle.std.specs.Prelude.{◌≡◌, length, IfOk, is_some};
ghost use Rattle.jac_lang.specs.Syntax.{Application};
ghost use Rattle.jac_route.specs.Found.{found, found_among, found_by, verb_of, view_for, IsWithin};
ghost use Rattle.jac_route.specs.Routes.{AreRoutes};

use crate::parts::path_pairs;
use crate::{Pairs, Route, Routes};
use jac_lang::Verb;
use jac_value::{Memory, Txt};
use std::alloc::Global;

/// The methods of the views that a path has. If it has GET, it has HEAD too.
#[derive(Clone, Copy, PartialEq, Eq)]
pub struct Allow {
    pub get: bool,
    pub post: bool,
}

/// What a request finds.
#[derive(Drop)]
pub enum Found {
    /// The number of the view, and the values that the path gives to the names in its pattern.
    View { view: u32, pairs: Pairs },
    /// No pattern fits the path.
    NoRoute,
    /// A pattern fits, but has no view for this method.
    WrongMethod(Allow),
}

/// The view for a method and a path. HEAD counts as GET. Parts of the path are percent-decoded, and
/// what isn't UTF-8 in them becomes U+FFFD.
pub fn find(alloc: Global, routes: &Routes, method: &Txt, path: &Txt) -> Result<Found, Memory>
    ensures among { IfOk result (λ f. f ≡ found_among routes.now method.now path.now) }
    ensures found { (app : Application) → AreRoutes app routes.now
        → IfOk result (λ f. f ≡ found app method.now path.now) }
    ensures within { (app : Application) → AreRoutes app routes.now
        → IfOk result (λ f. IsWithin (length app.views) f) }
{
    find_among(alloc, routes, method, path)
}

fn find_among(alloc: Global, routes: &Routes, method: &Txt, path: &Txt) -> Result<Found, Memory>
    ensures { IfOk result (λ f. f ≡ found_among routes.now method.now path.now) }
{
    match routes.route_at(path) {
        Some(route) => find_at(alloc, route, method, path),
        None => Ok(Found::NoRoute),
    }
}

// What the method finds at the route that the path found.
fn find_at(alloc: Global, route: &Route, method: &Txt, path: &Txt) -> Result<Found, Memory>
    ensures { IfOk result (λ f. f ≡ found_by (view_for route.now (verb_of method.now)) route.now
        path.now) }
{
    match view_for(route, verb_named(method)) {
        Some(view) => {
            let pairs = path_pairs(alloc, &route.pattern, path)?;
            Ok(Found::View { view, pairs })
        }
        None => Ok(Found::WrongMethod(allowed(route))),
    }
}

fn allowed(route: &Route) -> Allow
    ensures get { result.get ≡ is_some route.now.get }
    ensures post { result.post ≡ is_some route.now.post }
{
    Allow {
        get: route.get.is_some(),
        post: route.post.is_some(),
    }
}

fn view_for(route: &Route, verb: Option<Verb>) -> Option<u32>
    ensures { result ≡ view_for route.now verb }
{
    match verb {
        Some(Verb::Get) => route.get,
        Some(Verb::Post) => route.post,
        None => None,
    }
}

fn verb_named(method: &Txt) -> Option<Verb>
    ensures { result ≡ verb_of method.now }
{
    let word = method.as_str();
    if word == "GET" || word == "HEAD" {
        return Some(Verb::Get);
    }
    if word == "POST" {
        return Some(Verb::Post);
    }
    None
}
