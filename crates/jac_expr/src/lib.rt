//! Evaluates expressions and queries over guarded rows, for all assignments at once.
#![tactic(auto)]

mod binding;
mod choice;
mod env;
mod evaluation;
mod faceted_context;
mod operations;
mod order;
mod reading;
mod search;

pub use binding::bind_tuple;
pub use env::Env;
pub use evaluation::{eval, tuples};
pub use faceted_context::FacetedContext;
pub use jac_plain::{Ctx, is_true};
