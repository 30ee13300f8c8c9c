use jac_lang::App;
use jac_plain::Ctx;
use jac_world::Guard;

/// The context of an evaluation: the application, the request, and the path condition.
#[derive(Clone, Copy)]
pub struct FacetedContext<'h> {
    pub app: &'h App,
    pub ctx: &'h Ctx,
    pub pc: &'h Guard,
}
