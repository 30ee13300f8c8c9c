//! Finds which labels a viewer is shown. Each is allowed, and no single further one could be shown.
#![tactic(auto)]

mod laws;
mod live;
mod pass;
mod permission;
mod recall;
mod settled_cache;

pub use laws::{
    cache_moves, covered_by_nothing, empty_cache_is_valid, live_by_rows, settled_by_tables,
    valid_by_tables,
};
pub use live::{is_live, live_labels, live_of};
pub use pass::{resolve, settle_among};
pub use permission::allowed;
pub use recall::add_consulted;
pub use settled_cache::settle_cache;
