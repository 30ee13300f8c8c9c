//! Laws on kinds: in a well-formed application no expression gets a value of the wrong kind, and a
//! view that answers GET leaves the tables unchanged.
#![tactic(auto)]

mod laws;

pub use laws::{
    get_leaves_tables, kinds_hold, parameters_fit, policies_fit, publics_fit, viewers_fit,
    visits_fit,
};
