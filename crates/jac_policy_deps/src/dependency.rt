//! What a policy's result depends on.

/// A record that a policy reads, or by which it finds other records: the policy's own record, the
/// record that one of its fields refers to, or the viewer's record.
#[derive(Clone, Copy, PartialEq, Eq)]
pub enum Referent {
    This,
    /// The place of the model and the place of its field.
    Field(u8, u8),
    Viewer,
}

/// What a policy's result depends on, besides the policy's own record.
#[derive(Clone, Copy, PartialEq, Eq)]
pub enum Dependency {
    /// One record.
    One(Referent),
    /// The records of the model at this place.
    Table(u8),
    /// The records of a model that have a field that refers to the referent. The last two numbers
    /// are the places of the model and of the field.
    Found(Referent, u8, u8),
    /// Any record.
    Any,
}
