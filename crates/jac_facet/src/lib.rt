//! Faceted values: one value for each assignment of labels, in one tree.
#![tactic(auto)]

mod combine;
mod facet;
mod laws;
mod leaf;
mod leaves;
mod lists;
mod under;

pub use facet::Facet;
pub use laws::same_where_alike;
pub use leaf::Leaf;
pub use lists::{Facets, Leaves};
