//! Explains why a label is hidden from a viewer, and checks such an explanation.
#![tactic(auto, using(jac_shown_rows::proofs::Growing::agrees_same))]

mod hidden;
mod laws;
mod reasons;
mod viewer_context;
mod watch;

pub use hidden::{check_reason, why, whys};
pub use laws::{
    explained_is_full, none_where_allowed, settled_is_explained, why_stands, whys_stand,
};
pub use reasons::{Explanation, Reason};
pub use viewer_context::ViewerContext;
