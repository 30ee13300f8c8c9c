use jac_lang::App;
use jac_plain::Ctx;
use jac_world::Assignment;

/// What stays the same during an evaluation: the application, the context of the expressions, and
/// the assignment that shows the world.
#[derive(Clone, Copy)]
pub struct WorldContext<'a> {
    pub app: &'a App,
    pub ctx: &'a Ctx,
    pub assignment: &'a Assignment,
}
