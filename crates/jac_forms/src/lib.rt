//! Reads an application, an expression or a query from a tree, or gives the first fault of the
//! tree.
#![tactic(auto)]

mod applications;
mod assigned;
mod expressions;
mod fault;
mod fields;
mod models;
mod names;
mod place;
mod queries;
mod sites;
mod statements;
mod steps;
mod views;
mod words;

pub use applications::app_of;
pub use expressions::{expr_of, query_of};
pub use fault::{FormFault, Path, Want, What};
