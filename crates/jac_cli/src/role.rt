/// The role of a file in a command.
#[derive(Clone, Copy, PartialEq, Eq)]
pub enum Role {
    App,
    /// The application to which a store is upgraded.
    New,
    Sessions,
    Events,
}
