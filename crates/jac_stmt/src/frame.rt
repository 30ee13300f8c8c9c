use crate::Out;
use jac_expr::Env;

/// What statements change besides the work: the names in scope, and the pieces of the page.
#[derive(Drop)]
pub struct Frame {
    pub env: Env,
    pub out: Out,
}
