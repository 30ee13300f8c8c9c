//! Laws on the texts of `jac_demo`: they are an application, and requests to it.
#![tactic(auto)]

mod laws;

pub use laws::{calendar_opens, lines_are_requests};
