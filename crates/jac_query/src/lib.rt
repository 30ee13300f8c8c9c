//! Queries over rows with guards: tuples of records that project to the answers of a plain query.
#![tactic(auto)]

mod choice;
mod field;
mod filter;
mod product;
mod sorts;
mod sums;
mod tuple;

pub use choice::{first, fold_exists};
pub use field::read_field;
pub use filter::keep;
pub use product::cross;
pub use sorts::order;
pub use sums::{fold_count, fold_sum};
pub use tuple::{Tuple, Tuples};
