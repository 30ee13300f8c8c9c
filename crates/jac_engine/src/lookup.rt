//! The view at a place.
ghost use Rattle.std.specs.Prelude.{◌≡◌, ◌<◌, length, slice_get, Some};
ghost use Rattle.jac_lang.specs.Mirror.{application_of, page_of_view};

use jac_lang::{App, View};
use jac_replies::Ask;
use jac_route::Pairs;

/// A request that found a view.
#[derive(Clone, Copy)]
pub(crate) struct Visited<'v> {
    pub(crate) app: &'v App,
    pub(crate) ask: &'v Ask,
    /// The values that the path gives to the names in the pattern.
    pub(crate) path: &'v Pairs,
    /// The place of the view in the application.
    pub(crate) place: u32,
    pub(crate) view: &'v View,
}

/// The view with this number.
#[tactic(auto, using(jac_app_load::proofs::PlaceLaws::page_at))]
pub(crate) fn view_at(app: &App, number: u32) -> &View
    requires { number < length app.now.views }
    ensures { slice_get (application_of app.now).views number ≡ Some (page_of_view result.now) }
{
    view_among(app.views.as_slice(), number as usize)
}

fn view_among(views: &[View], place: usize) -> &View
    requires { place < length views.now }
    ensures { slice_get views.now place ≡ Some result.now }
{
    &views[place]
}
