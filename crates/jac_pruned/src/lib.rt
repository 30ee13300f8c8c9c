//! Evaluates expressions and queries in the one world that an assignment shows (early pruning). It
//! reports which labels were consulted.
#![tactic(auto, using(jac_shown_rows::proofs::Growing::grows_same, jac_shown_rows::proofs::Growing::grows_then, jac_shown_rows::proofs::Growing::agrees_less))]

mod answering;
mod binding;
mod candidate;
mod evaluation;
mod one_sorted;
mod order;
mod product;
mod wants;

pub use answering::answering_ids;
pub use binding::{bind_value, binder_alone, loop_of};
pub use evaluation::{answers_at, eval, eval_at};
