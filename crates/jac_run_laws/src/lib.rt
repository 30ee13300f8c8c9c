//! Laws on two runs with the same arguments and files: they read the same, and if their audits are
//! the same, they write the same bytes.
#![tactic(auto)]

mod laws;

pub use laws::{
    audits_fix_entries, audits_fix_sources, audits_tell_failures, bytes_agree,
    first_answers_are_few, replay_answers, replays_answer, serve_answers, serve_bytes_agree,
    serve_ends_agree, serves_agree, texts_fix_entries,
};
