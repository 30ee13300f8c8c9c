//! Runs the statements of a `GET` in the one world that an assignment shows, and makes its page. It
//! reports which labels were consulted.
#![tactic(auto, using(jac_shown_rows::proofs::Growing::grows_same, jac_shown_rows::proofs::Growing::grows_then, jac_shown_rows::proofs::Growing::agrees_less))]

mod assignments;
mod kept_names;
mod page_buffer;
mod page_cells;
mod progress;
mod run;
mod value_bytes;

pub use run::run_body_at;
