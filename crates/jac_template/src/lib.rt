//! Templates: the text of a page with tags in it, and the statements that it expands to.
#![tactic(auto)]

mod application;
mod blocks;
mod controls;
mod expansion;
mod fault;
mod laws;
mod marks;
mod pieces;
mod statements;

pub use application::{ViewFault, expand_app};
pub use expansion::expand;
pub use fault::TemplateFault;
pub use jac_value::escape_html as escape;
pub use laws::{each_text_expands, expands_to_one, expansion_keeps_sites};
