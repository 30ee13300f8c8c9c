//! Writes an application as a tree. This tree reads back as the same application.
#![tactic(auto)]

mod applications;
mod expressions;
mod shapes;
mod statements;

pub use applications::{tree_of, written_applications_are_read};
