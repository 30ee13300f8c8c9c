//! Labels, guards and assignments of faceted execution, and a counter of steps.
#![tactic(auto)]

mod assignment;
mod guard;
mod guards;
mod label;
mod laws;
mod rising_list;
mod steps;

pub use assignment::Assignment;
pub use guard::Guard;
pub use guards::Guards;
pub use label::Label;
pub use laws::{contradict_where_apart, holds_by_names, holds_somewhere, same_where_alike};
pub use rising_list::{add_among, is_among, remove_among};
pub use steps::Steps;
