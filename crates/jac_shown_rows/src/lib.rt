//! Reads records, and compares their fields, in the one world that an assignment shows. It reports
//! which labels were consulted.
#![tactic(auto, using(crate::proofs::Growing::grows_same, crate::proofs::Growing::grows_then, crate::proofs::Growing::agrees_less, crate::proofs::Growing::holds_alike))]

mod alike;
mod choice;
mod column;
mod comparison;
mod keys;
mod lent_table;
mod lookup;
mod presence;
mod reading;
mod recent_places;
mod scope;
mod support;
mod texts;
mod world_context;

pub use alike::{Joined, guard_of, join_first};
pub use choice::{count_of, first_of, keeps_all, push_copy_if, push_if, some_among, some_of};
pub use column::{Column, absent_of, column_named};
pub use comparison::{Comparison, comparison_at, keep_compared};
pub use keys::keyed_by;
pub use lookup::look_once;
pub use presence::{record_stands, stand};
pub use reading::{get, read_of, read_one, shown_cell};
pub use scope::{bound_value, look_up, text_at_hand};
pub use support::{Support, consult};
pub use texts::{push_text, spell, split_first, text_copy};
pub use world_context::WorldContext;
