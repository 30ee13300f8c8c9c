//! Makes a page with `--lazy`. It decides only the labels that are consulted.
#![tactic(auto, using(jac_shown_rows::proofs::Growing::grows_same, jac_shown_rows::proofs::Growing::grows_then, jac_shown_rows::proofs::Growing::agrees_less))]

mod consulted;
mod laws;
mod page;

pub use laws::{filled_is_settled, passed_is_settled, rounds_fill, steady_pages};
pub use page::{LazyPage, page_lazily};
