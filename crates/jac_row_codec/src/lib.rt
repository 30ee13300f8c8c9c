//! Encodes rows as bytes, and decodes them. It refuses other bytes at their first fault.
#![tactic(auto)]

mod body;
mod cell;
mod decode;
mod encode;
mod guard;
mod id;
mod laws;
mod number;
mod stop;
mod text;

pub use decode::{RowFault, decode_row};
pub use encode::{Stored, encode_row};
pub use id::{decode_id, encode_id};
pub use laws::{cells_are_spelled_once, guards_are_spelled_once, rows_are_spelled_once};
