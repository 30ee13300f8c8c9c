//! Laws on texts: bytes spell at most one application, and the calendar is open and local.
#![tactic(auto)]

mod laws;

pub use laws::{
    calendar_is_local, calendar_is_open, calendar_keeps_own, eight_is_local, eight_opens,
    one_application,
};
