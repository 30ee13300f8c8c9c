ghost use Rattle.std.specs.Prelude.{◌≡◌, ◌<◌, ◌^◌, [], length, IfErr, IfOk, OnOk, Ok};
ghost use Rattle.std.specs.Option.{option_map};
ghost use Rattle.matchit.specs.Route.{parse_route};
ghost use Rattle.matchit.specs.Seek.{first};
ghost use Rattle.jac_lang.specs.Mirror.{application_of, page_of_view, pages_of};
ghost use Rattle.jac_route.specs.Firsts.{firsts_at, route_by, with_view_by, table_by};
ghost use Rattle.jac_route.specs.Routes.{AreRoutes, Clashes, insert_fault, is_view_place, with_pattern, table_from, table_of};

use crate::firsts::{FirstViews, first_of_verb, first_views, firsts_of};
use jac_lang::{App, View};
use jac_value::{Memory, Txt};
use matchit::{InsertError, Router};
use std::alloc::Global;
use std::collections::BTreeMap;
use std::marker::Model;

/// A pattern, and the number of its view for each method.
#[derive(Drop)]
pub struct Route {
    pub pattern: Txt,
    pub get: Option<u32>,
    pub post: Option<u32>,
}

/// The routes of an application. A pattern that views of two methods share is one route.
#[derive(Drop)]
pub struct Routes {
    router: Router<Route>,
}

/// Why an application has no routes.
#[derive(Clone, Copy, PartialEq, Eq)]
pub enum RouteFault {
    /// The view with this number has the method and pattern of an earlier one, or a pattern that is
    /// invalid or conflicts with that of an earlier one.
    Clash(u32),
    /// Out of memory, or too many views.
    Memory,
}

impl Model for Routes {
    ghost use Rattle.jac_route.specs.Routes.{Table};

    ghost Value = { Table };

    ghost view = { λ r. r.router };
}

impl Routes {
    /// The route that the path finds.
    pub(crate) fn route_at(&self, path: &Txt) -> Option<&Route>
        ensures { option_map (λ r. r.now) result ≡ option_map (λ row. row.value)
            (first self.now path.now) }
    {
        match self.router.at(path.as_str()) {
            Ok(found) => Some(found.value),
            Err(_) => None,
        }
    }
}

/// The routes of the views. `matchit` parses each pattern.
pub fn routes_of(alloc: Global, app: &App) -> Result<Routes, RouteFault>
    ensures ok { IfOk result (λ routes. AreRoutes (application_of app.now) routes) }
    ensures clash { IfErr result (λ e. Clashes e (table_of (application_of app.now))) }
{
    let views = app.views.as_slice();
    if views.len() > u32::MAX as usize {
        return Err(RouteFault::Memory);
    }
    match router_of(alloc, views) {
        Ok(router) => Ok(Routes { router }),
        Err(fault) => Err(fault),
    }
}

fn router_of(alloc: Global, views: &[View]) -> Result<Router<Route>, RouteFault>
    requires few { length views.now < 2 ^ 32 }
    ensures ok { IfOk result (λ rows. table_from (pages_of views.now) 0 (pages_of views.now) []
        ≡ Ok rows) }
    ensures clash { IfErr result
        (λ e. Clashes e (table_from (pages_of views.now) 0 (pages_of views.now) [])) }
{
    match firsts_of(alloc, views) {
        Ok(firsts) => router_by(alloc, &firsts, views),
        Err(Memory) => Err(RouteFault::Memory),
    }
}

// The routes of the views, given the first views of each pattern.
fn router_by(
    alloc: Global,
    firsts: &BTreeMap<Txt, FirstViews>,
    views: &[View],
) -> Result<Router<Route>, RouteFault>
    requires few { length views.now < 2 ^ 32 }
    ensures ok { IfOk result (λ rows. table_by (firsts_at firsts.now) 0 (pages_of views.now) []
        ≡ Ok rows) }
    ensures clash { IfErr result
        (λ e. Clashes e (table_by (firsts_at firsts.now) 0 (pages_of views.now) [])) }
{
    let mut router = Router::new(alloc);
    let mut number: u32 = 0;
    'views: for view in views {
        match add_view(
            alloc,
            first_views(firsts, &view.path),
            number,
            view,
            &mut router,
        ) {
            Ok(()) => number += 1,
            Err(fault) => return Err(fault),
        }
    }
    Ok(router)
}

// Adds the view with this number. If an earlier view has the same pattern, it has a route already.
fn add_view(
    alloc: Global,
    first: FirstViews,
    number: u32,
    view: &View,
    router: &mut Router<Route>,
) -> Result<(), RouteFault>
    ensures ok { OnOk result (with_view_by first number (page_of_view view.now) router.old
        ≡ Ok router.new) }
    ensures clash { IfErr result (λ e. Clashes e (with_view_by first number
        (page_of_view view.now) router.old)) }
{
    if !is_place(number, first_of_verb(first, view.method)) {
        return Err(RouteFault::Clash(number));
    }
    if !is_place(number, first.any) {
        return Ok(());
    }
    match route_by(alloc, first, &view.path) {
        Ok(route) => add_route(number, &view.path, route, router),
        Err(Memory) => Err(RouteFault::Memory),
    }
}

fn add_route(
    number: u32,
    pattern: &Txt,
    route: Route,
    router: &mut Router<Route>,
) -> Result<(), RouteFault>
    ensures ok { OnOk result (with_pattern number (parse_route pattern.now) route router.old
        ≡ Ok router.new) }
    ensures clash { IfErr result (λ e. Clashes e (with_pattern number (parse_route pattern.now)
        route router.old)) }
{
    match router.insert(pattern.as_str(), route) {
        Ok(()) => Ok(()),
        Err(error) => Err(fault_of(number, &error)),
    }
}

fn fault_of(number: u32, error: &InsertError) -> RouteFault
    ensures { result ≡ insert_fault number error.now }
{
    match error {
        InsertError::OutOfMemory => RouteFault::Memory,
        InsertError::Conflict { with: _ }
        | InsertError::InvalidParamSegment
        | InsertError::InvalidParam
        | InsertError::InvalidCatchAll => RouteFault::Clash(number),
    }
}

// The route of a pattern with these first views.
fn route_by(alloc: Global, first: FirstViews, pattern: &Txt) -> Result<Route, Memory>
    ensures { IfOk result (λ route. route ≡ route_by first pattern.now) }
{
    let pattern = pattern.copy(alloc)?;
    Ok(Route {
        pattern,
        get: first.get,
        post: first.post,
    })
}

fn is_place(number: u32, place: Option<u32>) -> bool
    ensures { result ≡ is_view_place number place }
{
    match place {
        Some(place) => place == number,
        None => false,
    }
}
