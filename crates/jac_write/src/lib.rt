//! Creates, updates and deletes records under a path condition, for all assignments at once.
#![tactic(auto)]

mod alternatives;
mod cells;
mod change;
mod creation;
mod deletion;
mod drafts;
mod fit;
mod groups;
mod hidden;
mod merged;
mod named;
mod public_values;
mod schema;
mod sets;
mod stored;
mod subject;

pub use change::update;
pub use creation::create;
pub use deletion::delete;
pub use groups::regrouped;
pub use public_values::public_value;
pub use sets::Sets;
