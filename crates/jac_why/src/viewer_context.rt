use jac_lang::App;
use jac_value::Id;
use jac_world::Assignment;

/// A viewer of an application, and the labels that the viewer is shown.
#[derive(Clone, Copy)]
pub struct ViewerContext<'a> {
    pub app: &'a App,
    pub viewer: Option<Id>,
    pub labels: &'a Assignment,
}
