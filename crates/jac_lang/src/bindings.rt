use jac_value::{List, Txt, Value};

/// A name in scope and its value.
#[derive(Drop)]
pub struct Binding {
    pub name: Txt,
    pub bound_to: Value,
}

/// The names in scope, the innermost last.
pub type PlainEnv = List<Binding>;
