//! Examples of the ordinary interpreter, worked out by hand from `docs/LANGUAGE.md`: laws without a
//! body, which no program calls.
#![tactic(auto)]

mod expressions;
mod good;
mod labels;
mod makes;
mod pages;
mod queries;
mod settled;
mod shapes;
mod statements;
mod writes;

pub use expressions::{
    compares, computes, counts, fetches, finds, joins, lives, looks_up, picks, reads_literals,
    reasons,
};
pub use good::{flattens_tables, keeps_good_states, numbers_records, orders_rows, shapes_records};
pub use labels::{adds_labels, asks_policies, has_records, names_groups, projects};
pub use makes::{
    asks_behind_creates, asks_in_loops, asks_inside_statements, asks_of_creates, finds_no_records,
};
pub use pages::{answers_requests, leaves_states, settles_status, writes_locations};
pub use queries::{crosses, orders_ties, orders_values, selects};
pub use settled::{allows_labels, lists_live_labels, settles_labels};
pub use shapes::{counts_sites, fits_cells, shapes_models, tells_writes};
pub use statements::{assigns, branches, escapes, loops, puts_texts, scopes};
pub use writes::{creates, deletes, guards_fields, hides_records, makes_in_loops, updates};
