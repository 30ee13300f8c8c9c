//! Makes the bytes of replies and of audit lines.
#![tactic(auto)]

mod answer;
mod label_text;
mod label_texts;
mod quotes;
mod reply;
mod still;

pub use answer::{Answer, Ask};
pub use label_texts::LabelTexts;
pub use reply::{Spelling, audit_rest, is_head, refusal_reply, reply_line, sent_reply, text_bytes};
pub use still::{failed_reply, fixed_of, still_status, still_text, viewer_bytes};
