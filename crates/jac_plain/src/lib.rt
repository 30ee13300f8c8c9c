//! The ordinary interpreter: what expressions, statements, policies and pages mean in one world.
//! Only the operations on values, pieces and pages are run. Both interpreters use them.
#![tactic(auto)]

mod context;
mod laws;
mod operations;
mod page;
mod pages;
mod pieces;

pub use context::Ctx;
pub use laws::{
    creates_are_new, good_after_request, reading_leaves_tables, same_run_without_groups,
};
pub use operations::{decided, is_true, two_values};
pub use page::{Page, Piece};
pub use pages::{make_page, page_of};
pub use pieces::{Form, add_escaped, add_text, make_piece};
