use jac_lang::App;
use jac_value::Id;

/// The record that a write is about: its application, its model, and its id.
#[derive(Clone, Copy)]
pub(crate) struct Subject<'s> {
    pub(crate) app: &'s App,
    pub(crate) model: u8,
    pub(crate) id: Id,
}
