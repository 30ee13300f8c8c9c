//! Checks names and kinds. What it accepts is well formed, and it reports the first fault.
#![tactic(auto)]

mod cause;
mod cells;
mod checked;
mod expressions;
mod fault;
mod forms;
mod found;
mod kinds;
mod laws;
mod lookups;
mod loops;
mod models;
mod names;
mod paths;
mod queries;
mod schema;
mod scope;
mod statements;
mod views;

pub use checked::{Checked, check};
pub use fault::{CheckCause, CheckFault, Place, Wanted};
pub use laws::{well_is_runnable, well_without_fault};
