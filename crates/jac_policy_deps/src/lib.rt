//! Derives from a policy's text what its answer depends on. It finds which labels and viewers a
//! change may affect.
#![tactic(auto)]

mod dependency;
mod finder;
mod invalidation;
mod laws;
mod mark;
mod marker;
mod names;
mod reading;

pub use dependency::{Dependency, Referent};
pub use invalidation::invalidation_of;
pub use laws::{others_are_live, same_answers, spared_are_allowed};
pub use mark::Mark;
