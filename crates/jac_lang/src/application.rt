use crate::{Models, Views};
use jac_value::Txt;

/// An application. `viewer` names the model whose records are the viewers. Without it, there are no
/// viewers.
#[derive(Drop)]
pub struct App {
    pub viewer: Option<Txt>,
    pub models: Models,
    pub views: Views,
}
