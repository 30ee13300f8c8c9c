//! Rows with guards, the states that they make up, and what one assignment shows of a state.
#![tactic(auto)]

mod laws;
mod plain;
mod projection;
mod row;
mod shape;
mod state;
mod table;

pub use laws::good_by_guards;
pub use plain::{PlainRow, PlainState, PlainTable, PlainTables};
pub use projection::project;
pub use row::{Row, Rows};
pub use shape::{Flags, KindLists, Shape};
pub use state::State;
pub use table::{Table, Tables};
