//! Examples of right and wrong answers to requests: laws without a body, which no program calls.
#![tactic(auto)]

mod forms;
mod gets;
mod lazily;
mod posts;
mod refusals;

pub use forms::{leaves_worlds, tells_forms};
pub use gets::answers_gets;
pub use lazily::answers_lazily;
pub use posts::answers_posts;
pub use refusals::refuses;
