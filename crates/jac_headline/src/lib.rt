//! The promise as one law, and laws that follow from it.
#![tactic(auto)]

mod laws;

pub use laws::{
    each_reply_is_right, headline, headline_of_serves, hidden_changes_no_byte,
    nothing_forbidden_is_shown, update_leaves_others,
};
