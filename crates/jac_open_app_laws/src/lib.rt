//! Laws on open applications, whose policies read no guarded field: in even worlds, exactly one
//! list of labels is settled for a viewer.
#![tactic(auto)]

mod laws;

pub use laws::{
    alike_meanings, alike_policies, even_policies, one_is_settled, open_requests_keep_own,
    open_settled, same_settled, same_shown,
};
