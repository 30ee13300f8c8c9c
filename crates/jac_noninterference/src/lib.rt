//! Laws on two runs. Stores that look the same under an assignment stay so, and pages made under it
//! are the same.
#![tactic(auto)]

mod laws;

pub use laws::{
    all_is_seen, ends_agree, labels_agree, pages_agree, told_runs_serve, views_agree, worlds_agree,
};
