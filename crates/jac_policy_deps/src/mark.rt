//! The labels and the groups that a policy marks if it depends on replaced records.

use jac_value::Id;
use jac_world::Label;

/// A label, or a group of labels, whose policy may give another result. Models, groups and fields
/// are given by their places.
#[derive(Drop)]
pub enum Mark {
    One(Label),
    /// The labels of a group for the records that have a row that refers to this record by the
    /// field: the model, the group, the field and the record.
    Linked(u8, u8, u8, Id),
    /// A group of a model, for every viewer.
    All(u8, u8),
    /// A group of a model, for this viewer. `None` means requests without a viewer.
    Only(u8, u8, Option<Id>),
}
