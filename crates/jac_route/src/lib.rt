//! Finds the view of a request, its parameters, and its viewer.
#![tactic(auto)]

mod firsts;
mod laws;
mod lookup;
mod pairs;
mod parameters;
mod parts;
mod routes;
mod sessions;
mod words;

pub use laws::{clashes_have_a_reason, found_views_fit};
pub use lookup::{Allow, Found, find};
pub use pairs::{Pair, Pairs, pairs_of};
pub use parameters::{bind, kind_by_name, viewer_id};
pub use routes::{Route, RouteFault, Routes, routes_of};
pub use sessions::{Session, SessionFault, Sessions, sessions_of, viewer_of};
