//! Runs the statements of a `POST` over guarded rows, under a path condition, for all assignments
//! at once.
#![tactic(auto)]

mod assignments;
mod drafts;
mod execution;
mod frame;
mod loops;
mod out;
mod page;
mod pieces;

pub use execution::exec;
pub use frame::Frame;
pub use jac_plain::{Page, Piece};
pub use out::Out;
pub use page::page_of;
