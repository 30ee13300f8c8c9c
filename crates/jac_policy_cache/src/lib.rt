//! The cache of one viewer's labels, and of answers of policies. It defines what a change
//! invalidates.
#![tactic(auto)]

mod by_group;
mod invalidation;
mod labels;
mod laws;
mod links;
mod policy_memo;
mod viewer_cache;

pub use invalidation::{AffectedGroup, Audience, Invalidation};
pub use labels::Labels;
pub use laws::recall_by_dependencies;
pub use policy_memo::{LabelMemo, MemoEntry, PolicyMemo, signs};
pub use viewer_cache::ViewerCache;
