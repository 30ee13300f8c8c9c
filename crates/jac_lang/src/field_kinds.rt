use jac_value::{List, Txt};

/// A kind as the program's text names it. A reference has the name of its model.
#[derive(Drop, PartialEq, Eq)]
pub enum KindName {
    Int,
    Text,
    Bool,
    Ref(Txt),
}

/// A field of a model, or a parameter of a view.
#[derive(Drop)]
pub struct Field {
    pub name: Txt,
    pub kind: KindName,
}

/// Fields in the order of the text.
pub type Fields = List<Field>;
