//! Answers each request by `jac_engine` over a keeper, and keeps the caches of viewers valid.
#![tactic(auto)]

mod answer;
mod asks;
mod handler;

pub use answer::{AnswerLines, RequestSource, answer_ask, ready_answer, store_answer};
pub use asks::{ask_in, request_in, request_viewer, viewer_in};
pub use handler::AppDispatcher;
