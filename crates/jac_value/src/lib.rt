//! Texts, bytes, lists, ids, kinds and values, and the error for out-of-memory.
#![tactic(auto)]

mod bytes;
mod cells;
mod digits;
mod escape;
mod html;
mod id;
mod list;
mod memory;
mod names;
mod parts;
mod paths;
mod read;
mod text;
mod value;
mod visitors;

pub use bytes::Bytes;
pub use cells::Cells;
pub use digits::{are_digits, decimal};
pub use escape::escape_line;
pub use html::{add_html, escape_html};
pub use id::{Id, Ids, id_model, id_of, is_id, is_narrow_id, label_number, loop_id_of};
pub use list::{List, TryClone, try_clone_all};
pub use memory::Memory;
pub use names::{are_atom_bytes, is_name};
pub use parts::first_part;
pub use paths::{is_path, segment_name, segments_of};
pub use read::{integer_of, value_of};
pub use text::{Txt, TxtFault, copy_name};
pub use value::{Kind, Kinds, Value, default_of, text_of};
pub use visitors::{is_session_token, number_of_digits, read_viewer};
