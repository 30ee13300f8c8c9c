use crate::page_buffer::PageBuffer;
use jac_lang::Binding;
use jac_value::Txt;

/// What a run changes: the names in scope, with the innermost last, and the page. The text of a
/// name that a loop unbinds is kept, to be bound again.
#[derive(Drop)]
pub(crate) struct Progress {
    pub env: Vec<Binding>,
    pub kept: Vec<Txt>,
    pub page: PageBuffer,
}
