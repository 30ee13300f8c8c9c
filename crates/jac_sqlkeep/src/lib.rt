//! A keeper over SQLite.
#![tactic(auto)]

mod alternatives;
mod cause;
mod database;
mod form;
mod keeper;
mod meta;
mod models;
mod opener;
mod records;
mod step;
mod stored;

pub use cause::Unfit;
pub use keeper::SqlKeeper;
pub use meta::{find_schema, make_tables, read_number, set_number, set_schema, test_key};
pub use opener::{FileOpener, HostOpener, MemoryOpener, OpenFault, Opener};
pub use records::{add, read_model, read_record, remove, write_change, write_record};
pub use stored::test_rows;
