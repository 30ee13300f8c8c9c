use crate::names::Names;
use jac_lang::App;
use jac_value::Kind;

// The scope of an expression. `this` is `None` if the word isn't allowed.
#[derive(Clone, Copy)]
pub(crate) struct Scope<'s> {
    pub app: &'s App,
    pub this: Option<Kind>,
    pub names: &'s Names<'s>,
    pub is_public: bool,
}
