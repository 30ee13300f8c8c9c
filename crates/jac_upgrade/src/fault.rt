/// The first part of an application that another one lacks or has changed. Each place is a place in
/// the first application.
#[derive(Clone, Copy, PartialEq, Eq)]
pub enum UpgradeFault {
    /// A model that is missing, or differs in its name or in whether it is nested.
    Model(u8),
    /// A field of a model that is missing, or differs in its name or kind.
    Field { model: u8, field: u8 },
    /// A group of a model that is missing, or differs in the fields that it guards or in whether it
    /// hides records.
    Group { model: u8, group: u8 },
}
