//! Loads an application from its bytes, or gives the line that refuses it.
#![tactic(auto)]

mod application;
mod laws;
mod refusal;
mod service;

pub use application::read_application;
pub use laws::{schema_of_well, well_is_served};
pub use refusal::{Refusal, refusal_line};
pub use service::Service;
