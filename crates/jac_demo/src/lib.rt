//! Makes the text of the demo calendar, and of any number of requests to it.
#![tactic(auto)]

mod calendar;
mod requests;

pub use calendar::demo_app;
pub use requests::demo_events;
