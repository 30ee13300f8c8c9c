use jac_value::Id;

/// The context of an expression, besides the state and the bindings.
#[derive(Clone, Copy)]
pub struct Ctx {
    /// The record of the viewer.
    pub viewer: Option<Id>,
    /// The record that the policy or the public value is about.
    pub this: Option<Id>,
    /// The number of the request.
    pub number: u64,
    /// The record of the innermost `for` around a statement, if it has exactly one binder. The id
    /// of a record of a nested model that is created there is made from it.
    pub around: Option<Id>,
}
